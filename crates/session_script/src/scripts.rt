//! Whole scripts.
ghost use Rattle.std.specs.Prelude.{◌≡◌, ◌≢◌, [], count_by, IfOk, IfErr, OnOk, Ok, Err};
ghost use Rattle.cyc_text.specs.Words.{words_of};
ghost use Rattle.session_script.specs.Calls.{is_report};
ghost use Rattle.session_script.specs.Scripts as spec;

use crate::calls::{Call, Script};
use crate::faults::ScriptFault;
use crate::lines::call_of;
use cyc_text::{Limit, first_word, next_line};
use netlist_reader::LineFault;
use std::alloc::Global;

/// The calls of a script, where `lines` calls and among them `reports` reports are left; or the fault of its first line at fault.
///
/// `Syntax` tells that line's number, from 1. `TooMany(Lines)` comes where the line is a call beyond `lines`, and else
/// `TooMany(Reports)` where it is a report beyond `reports`. `Memory` comes only for want of memory. Linear in the bytes.
pub fn read(alloc: Global, bytes: &[u8], lines: u64, reports: u64) -> Result<Script, ScriptFault>
    ensures ok { IfOk result (λ s. spec.script_of bytes.now lines reports ≡ Ok s) }
    ensures refused { IfErr result (λ e. e ≢ ScriptFault.Memory → spec.script_of bytes.now lines reports ≡ Err e) }
{
    let mut calls = Vec::new(alloc);
    read_lines(alloc, bytes, lines, reports, &mut calls)?;
    Ok(Script::of(calls))
}

/// Adds the call of each line to none, up to the first line at fault.
#[tactic(auto, unfolding(crate::specs::Scripts::after_lines))]
fn read_lines(
    alloc: Global,
    bytes: &[u8],
    lines: u64,
    reports: u64,
    calls: &mut Vec<Call>,
) -> Result<(), ScriptFault>
    requires { calls.old.items ≡ [] }
    ensures ok { OnOk result (spec.script_of bytes.now lines reports ≡ Ok calls.new.items) }
    ensures refused { IfErr result (λ e. e ≢ ScriptFault.Memory → spec.script_of bytes.now lines reports ≡ Err e) }
{
    let mut at = 0;
    let mut number = 1u64;
    let mut reported = 0u64;
    while let Some(line) = next_line(bytes, at) {
        let text = &bytes[line.from..line.to];
        read_line(alloc, number, text, lines, reports, calls, &mut reported)?;
        number += 1;
        at = line.next;
    }
    Ok(())
}

/// Adds the call of line `number`, if the line has a word.
#[tactic(auto, unfolding(crate::specs::Scripts::after_words))]
fn read_line(
    alloc: Global,
    number: u64,
    line: &[u8],
    lines: u64,
    reports: u64,
    calls: &mut Vec<Call>,
    reported: &mut u64,
) -> Result<(), ScriptFault>
    requires { reported.old ≡ count_by is_report calls.old.items }
    ensures ok { OnOk result (spec.after_words lines reports number (words_of line.now) calls.old.items ≡ Ok calls.new.items) }
    ensures refused { IfErr result (λ e. e ≢ ScriptFault.Memory → spec.after_words lines reports number (words_of line.now) calls.old.items ≡ Err e) }
    ensures counted { OnOk result (reported.new ≡ count_by is_report calls.new.items) }
{
    let Some((first, rest)) = first_word(line) else {
        return Ok(());
    };
    match call_of(alloc, line, first, rest) {
        Ok(call) => push_call(call, lines, reports, calls, reported),
        Err(LineFault::Syntax) => Err(ScriptFault::Syntax(number)),
        Err(LineFault::Memory) => Err(ScriptFault::Memory),
    }
}

/// Adds a call where one is left, and for a report where a report is left.
#[tactic(auto, unfolding(crate::specs::Scripts::with_call))]
fn push_call(
    call: Call,
    lines: u64,
    reports: u64,
    calls: &mut Vec<Call>,
    reported: &mut u64,
) -> Result<(), ScriptFault>
    requires { reported.old ≡ count_by is_report calls.old.items }
    ensures ok { OnOk result (spec.with_call lines reports calls.old.items call ≡ Ok calls.new.items) }
    ensures refused { IfErr result (λ e. e ≢ ScriptFault.Memory → spec.with_call lines reports calls.old.items call ≡ Err e) }
    ensures counted { OnOk result (reported.new ≡ count_by is_report calls.new.items) }
{
    if calls.len() as u64 >= lines {
        return Err(ScriptFault::TooMany(Limit::Lines));
    }
    let report = call.is_report();
    if report && *reported >= reports {
        return Err(ScriptFault::TooMany(Limit::Reports));
    }
    calls.push(call)?;
    if report {
        *reported += 1;
    }
    Ok(())
}
