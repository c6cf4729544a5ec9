//! Rows of faults and their lines.
use crate::{FaultLine, Names, fault_text};
use cell_arcs::LibraryFault;
use cyc_text::{Limit, Text};
use netlist_model::StatementFault;
use std::alloc::{AllocError, Global};
use std::test::Fail;

/// Whether the line of a fault is this text.
fn is_line(alloc: Global, fault: FaultLine, wanted: &str) -> Result<bool, AllocError> {
    let text = fault_text(alloc, &fault)?;
    Ok(text.bytes() == wanted.as_bytes())
}

fn text(alloc: Global, word: &str) -> Result<Text, AllocError> {
    Text::of(alloc, word.as_bytes())
}

/// The line of a dead cycle of two rules.
fn dead_line(alloc: Global) -> Result<bool, AllocError> {
    let mut names = Vec::new(alloc);
    names.push(text(alloc, "A+")?)?;
    names.push(text(alloc, "B-")?)?;
    is_line(
        alloc,
        FaultLine::Dead(Names::of(names)),
        "fault: netlist V3 A+ B-\n",
    )
}

#[test]
fn faults_and_their_lines(rt: HostRuntime) -> Result<(), Fail> {
    let alloc = rt.alloc();
    let taken = FaultLine::NetStatement(6, StatementFault::DriverTaken(2));
    assert!(rt; is_line(alloc, taken, "fault: netlist line 6 S8 2\n")?);
    let wide = FaultLine::Library(LibraryFault::TooMany(Limit::Inputs, 1));
    assert!(rt; is_line(alloc, wide, "fault: library L9 inputs cell 1\n")?);
    assert!(rt; dead_line(alloc)?);
    Ok(())
}

#[test]
fn scripts_and_their_lines(rt: HostRuntime) -> Result<(), Fail> {
    for (fault, wanted) in [
        (
            FaultLine::ScriptSyntax(2, 7),
            "fault: script 2 line 7 syntax\n",
        ),
        (
            FaultLine::ScriptTooMany(1, Limit::Lines),
            "fault: script 1 P2 lines\n",
        ),
        (
            FaultLine::ScriptTooMany(3, Limit::Reports),
            "fault: script 3 P2 reports\n",
        ),
    ] {
        assert!(rt; is_line(rt.alloc(), fault, wanted)?, "{wanted}");
    }
    Ok(())
}
