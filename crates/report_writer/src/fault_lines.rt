//! The line of a fault.
ghost use Rattle.std.specs.Prelude.{◌≡◌, ◌++◌, IfOk, OnOk, codes, decimal};
ghost use Rattle.report_writer.specs.FaultLines as spec;

use crate::faults::{FaultLine, Names};
use cell_arcs::LibraryFault;
use cyc_text::{Limit, Text, push_decimal};
use netlist_model::StatementFault;
use std::alloc::{AllocError, Global};

/// What there is too many of.
fn limit_word(limit: Limit) -> &'static str
    ensures { result.now ≡ spec.limit_word limit }
{
    match limit {
        Limit::Cells => "cells",
        Limit::Inputs => "inputs",
        Limit::Nets => "nets",
        Limit::Consts => "consts",
        Limit::Forks => "forks",
        Limit::Roots => "roots",
        Limit::Lines => "lines",
        Limit::Reports => "reports",
    }
}

/// Adds a code and a cell's position.
fn push_cell(text: &mut Vec<u8>, code: &str, cell: usize) -> Result<(), AllocError>
    ensures { OnOk result (text.new.items ≡ text.old.items ++ spec.at_cell code.now cell) }
{
    text.extend_from_slice(code.as_bytes())?;
    text.extend_from_slice(b" cell ")?;
    push_decimal(text, cell as u64)
}

/// Adds a code and the positions of a cell and its pin.
fn push_pin(text: &mut Vec<u8>, code: &str, cell: usize, pin: usize) -> Result<(), AllocError>
    ensures { OnOk result (text.new.items ≡ text.old.items ++ spec.at_pin code.now cell pin) }
{
    push_cell(text, code, cell)?;
    text.extend_from_slice(b" pin ")?;
    push_decimal(text, pin as u64)
}

/// Adds a code and the positions of a cell and its arc.
fn push_arc(text: &mut Vec<u8>, code: &str, cell: usize, arc: usize) -> Result<(), AllocError>
    ensures { OnOk result (text.new.items ≡ text.old.items ++ spec.at_arc code.now cell arc) }
{
    push_cell(text, code, cell)?;
    text.extend_from_slice(b" arc ")?;
    push_decimal(text, arc as u64)
}

/// Adds what a library has too many of.
fn push_too_many(text: &mut Vec<u8>, limit: Limit, cell: usize) -> Result<(), AllocError>
    ensures { OnOk result (text.new.items ≡ text.old.items ++ spec.too_many_text limit cell) }
{
    match limit {
        Limit::Cells => text.extend_from_slice(b"L9 cells"),
        Limit::Inputs => push_cell(text, "L9 inputs", cell),
        Limit::Nets => push_cell(text, "L9 nets", cell),
        Limit::Consts => push_cell(text, "L9 consts", cell),
        Limit::Forks => push_cell(text, "L9 forks", cell),
        Limit::Roots => push_cell(text, "L9 roots", cell),
        Limit::Lines => push_cell(text, "L9 lines", cell),
        Limit::Reports => push_cell(text, "L9 reports", cell),
    }
}

/// Adds why a library is refused.
fn push_library(text: &mut Vec<u8>, fault: LibraryFault) -> Result<(), AllocError>
    ensures { OnOk result (text.new.items ≡ text.old.items ++ spec.library_text fault) }
{
    match fault {
        LibraryFault::BadToml => text.extend_from_slice(b"L1"),
        LibraryFault::BadShape(cell) => push_cell(text, "L2", cell),
        LibraryFault::BadName(cell, pin) => push_pin(text, "L3", cell, pin),
        LibraryFault::RepeatedPin(cell, pin) => push_pin(text, "L4", cell, pin),
        LibraryFault::UnknownPin(cell, arc) => push_arc(text, "L5", cell, arc),
        LibraryFault::RepeatedArc(cell, arc) => push_arc(text, "L6", cell, arc),
        LibraryFault::BadSense(cell, arc) => push_arc(text, "L7", cell, arc),
        LibraryFault::BadDelay(cell, arc) => push_arc(text, "L8", cell, arc),
        LibraryFault::TooMany(limit, cell) => push_too_many(text, limit, cell),
        LibraryFault::Memory => text.extend_from_slice(b"L10"),
    }
}

/// The code of a statement's fault, and a blank where a payload follows.
fn statement_code(fault: StatementFault) -> &'static str
    ensures { result.now ≡ spec.statement_code fault }
{
    match fault {
        StatementFault::BadName => "S1",
        StatementFault::NameTaken => "S2",
        StatementFault::UnknownNet => "S3",
        StatementFault::UnknownCell => "S4",
        StatementFault::UnknownInst => "S5",
        StatementFault::UnknownPin => "S6",
        StatementFault::BadPins => "S7",
        StatementFault::DriverTaken(_) => "S8 ",
        StatementFault::ConstDriven => "S9",
        StatementFault::NoArc => "S10",
        StatementFault::OutOfRange(_) => "S11 ",
        StatementFault::TickTaken => "S12",
        StatementFault::UnknownEvent => "S13",
        StatementFault::RootTaken => "S14",
        StatementFault::ForkTaken => "S15",
        StatementFault::UnknownFork => "S16",
        StatementFault::StillUsed => "S17",
        StatementFault::TooMany(_) => "S18 ",
        StatementFault::Memory => "S19",
    }
}

/// Adds what follows the code of a statement's fault.
fn push_payload(text: &mut Vec<u8>, fault: StatementFault) -> Result<(), AllocError>
    ensures { OnOk result (text.new.items ≡ text.old.items ++ spec.statement_payload fault) }
{
    match fault {
        StatementFault::DriverTaken(at) => push_decimal(text, at as u64),
        StatementFault::OutOfRange(number) => push_decimal(text, number),
        StatementFault::TooMany(limit) => text.extend_from_slice(limit_word(limit).as_bytes()),
        _ => Ok(()),
    }
}

/// Adds why a statement is refused.
pub(crate) fn push_statement(text: &mut Vec<u8>, fault: StatementFault) -> Result<(), AllocError>
    ensures { OnOk result (text.new.items ≡ text.old.items ++ spec.statement_text fault) }
{
    text.extend_from_slice(statement_code(fault).as_bytes())?;
    push_payload(text, fault)
}

/// Adds a code and a number.
pub(crate) fn push_number(text: &mut Vec<u8>, code: &str, number: u64) -> Result<(), AllocError>
    ensures { OnOk result (text.new.items ≡ text.old.items ++ code.now ++ decimal number) }
{
    text.extend_from_slice(code.as_bytes())?;
    push_decimal(text, number)
}

/// Adds a code and a name.
pub(crate) fn push_name(text: &mut Vec<u8>, code: &str, name: &Text) -> Result<(), AllocError>
    ensures { OnOk result (text.new.items ≡ text.old.items ++ code.now ++ name.now) }
{
    text.extend_from_slice(code.as_bytes())?;
    text.extend_from_slice(name.bytes())
}

/// Adds names, a space before each.
#[tactic(auto, unfolding(crate::specs::FaultLines::spaced))]
fn push_spaced(text: &mut Vec<u8>, names: &[Text]) -> Result<(), AllocError>
    ensures { OnOk result (text.new.items ≡ text.old.items ++ spec.spaced names.now) }
{
    'names: for name in names {
        text.extend_from_slice(b" ")?;
        text.extend_from_slice(name.bytes())?;
    }
    Ok(())
}

/// Adds a code and names.
fn push_names(text: &mut Vec<u8>, code: &str, names: &Names) -> Result<(), AllocError>
    ensures { OnOk result (text.new.items ≡ text.old.items ++ code.now ++ spec.spaced names.now) }
{
    text.extend_from_slice(code.as_bytes())?;
    push_spaced(text, names.list())
}

/// Adds why a library is refused, behind its word.
fn push_refused(text: &mut Vec<u8>, fault: LibraryFault) -> Result<(), AllocError>
    ensures { OnOk result (text.new.items ≡ text.old.items ++ codes "library " ++ spec.library_text fault) }
{
    text.extend_from_slice(b"library ")?;
    push_library(text, fault)
}

/// Adds a code and a line's number, and that the line has no form of its file's lines.
fn push_syntax(text: &mut Vec<u8>, code: &str, line: u64) -> Result<(), AllocError>
    ensures { OnOk result (text.new.items ≡ text.old.items ++ code.now ++ decimal line ++ codes " syntax") }
{
    push_number(text, code, line)?;
    text.extend_from_slice(b" syntax")
}

/// Adds a code and a position, and why the statement that stands there is refused.
pub(crate) fn push_line(
    text: &mut Vec<u8>,
    code: &str,
    position: u64,
    fault: StatementFault,
) -> Result<(), AllocError>
    ensures { OnOk result
        (text.new.items ≡ text.old.items ++ code.now ++ decimal position ++ codes " " ++ spec.statement_text fault) }
{
    push_number(text, code, position)?;
    text.extend_from_slice(b" ")?;
    push_statement(text, fault)
}

/// Adds a script's number, and that a line of it has no form of a call.
fn push_script_syntax(text: &mut Vec<u8>, script: u64, line: u64) -> Result<(), AllocError>
    ensures { OnOk result (text.new.items ≡ text.old.items ++ codes "script " ++ decimal script ++ codes " line " ++ decimal line ++ codes " syntax") }
{
    push_number(text, "script ", script)?;
    push_syntax(text, " line ", line)
}

/// Adds a script's number, and what there is too many of.
fn push_script_limit(text: &mut Vec<u8>, script: u64, limit: Limit) -> Result<(), AllocError>
    ensures { OnOk result (text.new.items ≡ text.old.items ++ codes "script " ++ decimal script ++ codes " P2 " ++ spec.limit_word limit) }
{
    push_number(text, "script ", script)?;
    text.extend_from_slice(b" P2 ")?;
    text.extend_from_slice(limit_word(limit).as_bytes())
}

/// Adds what is told of a fault.
fn push_told(text: &mut Vec<u8>, fault: &FaultLine) -> Result<(), AllocError>
    ensures { OnOk result (text.new.items ≡ text.old.items ++ spec.told fault.now) }
{
    match fault {
        FaultLine::Usage => text.extend_from_slice(b"usage"),
        FaultLine::Library(fault) => push_refused(text, *fault),
        FaultLine::NetSyntax(line) => push_syntax(text, "netlist line ", *line),
        FaultLine::NetStatement(line, fault) => push_line(text, "netlist line ", *line, *fault),
        FaultLine::Undriven(net) => push_name(text, "netlist H1 ", net),
        FaultLine::NoRoot => text.extend_from_slice(b"netlist H2"),
        FaultLine::IdleTick(tick) => push_number(text, "netlist H3 ", *tick),
        FaultLine::TooManyRules(count) => push_number(text, "netlist H4 ", *count),
        FaultLine::Unreached(event) => push_name(text, "netlist V1 ", event),
        FaultLine::NoReturn(event) => push_name(text, "netlist V2 ", event),
        FaultLine::Dead(events) => push_names(text, "netlist V3", events),
        FaultLine::EditsSyntax(line) => push_syntax(text, "edits line ", *line),
        FaultLine::EditsStatement(edit, fault) => push_line(text, "edits edit ", *edit, *fault),
        FaultLine::ScriptSyntax(script, line) => push_script_syntax(text, *script, *line),
        FaultLine::ScriptTooMany(script, limit) => push_script_limit(text, *script, *limit),
        FaultLine::ReadFault(name) => push_name(text, "read ", name),
        FaultLine::TooLong(name) => push_name(text, "too long ", name),
    }
}

/// The line of a fault: `fault: `, what is told of it, and a line feed. `AllocError` only for want of memory.
pub fn fault_text(alloc: Global, fault: &FaultLine) -> Result<Text, AllocError>
    ensures { IfOk result (λ text. text ≡ spec.fault_text fault.now) }
{
    let mut text = Vec::from_slice(alloc, b"fault: ")?;
    push_told(&mut text, fault)?;
    text.extend_from_slice(b"\n")?;
    Text::of(alloc, &text)
}
