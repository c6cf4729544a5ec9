//! The steps of a run that read scripts.
ghost use Rattle.std.specs.Prelude.{◌≡◌, [], IfOk, IfErr, count_by, length, map};
ghost use Rattle.std.specs.String.{string_bytes};
ghost use Rattle.cyc_port.specs.Seen.{Seen, Later};
ghost use Rattle.session_script.specs.Calls.{is_report};
ghost use Rattle.engine.specs.Files.{script_opened, script_read, scripts_opened};
ghost use Rattle.engine.specs.Steps.{Passes, Stops};

use crate::faults::Fault;
use crate::steps::open;
use cyc_port::Shelf;
use report_writer::FaultLine;
use session_script::{Call, Script, ScriptFault, read};
use std::alloc::Global;

/// The most calls of all scripts.
const MOST_CALLS: u64 = 4096;

/// The most reports of all scripts.
const MOST_REPORTS: u64 = 64;

/// The script of a number that bytes write, where so many calls and so many reports are left.
fn read_script(
    alloc: Global,
    number: u64,
    calls: u64,
    reports: u64,
    bytes: &[u8],
) -> Result<Script, Fault>
    ensures ok { (seen : Seen) → IfOk result (Passes seen seen (script_read number calls reports bytes.now)) }
    ensures err { (seen : Seen) → IfErr result (Stops seen seen (script_read number calls reports bytes.now)) }
{
    match read(alloc, bytes, calls, reports) {
        Ok(script) => Ok(script),
        Err(ScriptFault::Memory) => Err(Fault::Memory),
        Err(ScriptFault::Syntax(line)) => Err(Fault::Line(FaultLine::ScriptSyntax(number, line))),
        Err(ScriptFault::TooMany(limit)) => Err(Fault::Line(FaultLine::ScriptTooMany(
            number, limit,
        ))),
    }
}

/// The script of a number in a file.
fn open_script<F: Shelf>(
    alloc: Global,
    shelf: &mut F,
    number: u64,
    calls: u64,
    reports: u64,
    name: &str,
) -> Result<Script, Fault>
    ensures ok { IfOk result (Passes (F.seen shelf.old) (F.seen shelf.new) (script_opened number calls reports name.now)) }
    ensures err { IfErr result (Stops (F.seen shelf.old) (F.seen shelf.new) (script_opened number calls reports name.now)) }
    ensures later { Later (F.seen shelf.old) (F.seen shelf.new) }
{
    let text = open(alloc, shelf, name)?;
    read_script(alloc, number, calls, reports, text.bytes())
}

/// How many reports are among the calls.
fn report_count(calls: &[Call]) -> u64
    ensures { result ≡ count_by is_report calls.now }
{
    let mut count = 0;
    for call in calls {
        if call.is_report() {
            count += 1;
        }
    }
    count
}

/// The scripts in files, one after another: each gets of the most calls and the most reports what the ones before it left.
pub(crate) fn open_scripts<F: Shelf>(
    alloc: Global,
    shelf: &mut F,
    names: &[String],
) -> Result<Vec<Script>, Fault>
    ensures ok { IfOk result (λ scripts. Passes (F.seen shelf.old) (F.seen shelf.new) (scripts_opened (map string_bytes names.now) []) scripts.items) }
    ensures count { IfOk result (λ scripts. length scripts.items ≡ length names.now) }
    ensures err { IfErr result (Stops (F.seen shelf.old) (F.seen shelf.new) (scripts_opened (map string_bytes names.now) [])) }
    ensures later { Later (F.seen shelf.old) (F.seen shelf.new) }
{
    let mut scripts = Vec::new(alloc);
    let mut calls = MOST_CALLS;
    let mut reports = MOST_REPORTS;
    for name in names {
        let number = scripts.len() as u64 + 1;
        let script = open_script(alloc, shelf, number, calls, reports, name.as_str())?;
        calls = calls.saturating_sub(script.list().len() as u64);
        reports = reports.saturating_sub(report_count(script.list()));
        scripts.push(script)?;
    }
    Ok(scripts)
}
