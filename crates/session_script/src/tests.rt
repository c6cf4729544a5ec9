//! Rows of scripts, and what each is read as.
use crate::{Call, Script, ScriptFault, read};
use netlist_model::Edit;
use std::alloc::Global;
use std::test::Fail;

/// The calls of all scripts together, and the reports among them.
const LINES: u64 = 4096;

const REPORTS: u64 = 64;

/// Scripts, and what each is read as. `|` stands for a line feed, `~` for a carriage return.
const SCRIPTS: &str = "\
# nothing~|~|  => 
 => 
pin|period|delay i1 A 15 10|period|publish|period|pin 0|period| => Pin Period Delay Period Publish Period PinAt(0) Period
pin|delay i1 A 15 10|publish|rebase|publish|period| => Pin Delay Publish Rebase Publish Period
pin|move i3 B C|tick D- A+ 0|delinst i4|delnet D|publish| => Pin Move Tick DelInst DelNet Publish
pin|delay i1 A 12 10|delay i4 A 13 10|period|period|period|publish|rebase|draft|pin| => Pin Delay Delay Period Period Period Publish Rebase Draft Pin
# two~||\tpin~| pin  3 # third~|drop#|cycle|report~| => Pin PinAt(3) Drop Cycle Report
arrival A+|arrival +|arrival A-|slack f1|slack +=? => ArrivalRise ArrivalRise ArrivalFall Slack Slack
root A-|net A|const r|inst i INV A=A Z=A|swap i BUF|fork f A+ A- A+ 1 0|delfork f => Root Net Const Inst Swap Fork DelFork
pin 007 => Err(Syntax(1))
pin|pin -1 => Err(Syntax(2))
pin|# two|pin x y => Err(Syntax(3))
pin 1 2|pin x => Err(Syntax(1))
arrival A => Err(Syntax(1))
arrival => Err(Syntax(1))
slack|pin => Err(Syntax(1))
slack f g => Err(Syntax(1))
report now => Err(Syntax(1))
delay i1 A 15 => Err(Syntax(1))
pin 9999999999999999999|Pin => Err(Syntax(2))
pin|delinst|pin x => Err(Syntax(2))
";

/// Scripts of so many reports, so many pins and a last line, and what each is read as: how many calls, or why it is refused.
const LONG_SCRIPTS: [(usize, usize, &str, Result<usize, ScriptFault>); 7] = [
    (0, 4096, "#", Ok(4096)),
    (
        0,
        4096,
        "pin",
        Err(ScriptFault::TooMany(cyc_text::Limit::Lines)),
    ),
    (64, 0, "pin", Ok(65)),
    (
        64,
        0,
        "report",
        Err(ScriptFault::TooMany(cyc_text::Limit::Reports)),
    ),
    (64, 4032, "", Ok(4096)),
    (
        64,
        4032,
        "report",
        Err(ScriptFault::TooMany(cyc_text::Limit::Lines)),
    ),
    (64, 4032, "report now", Err(ScriptFault::Syntax(4097))),
];

/// An edit in a word.
fn edit_word(edit: &Edit) -> &'static str {
    match edit {
        Edit::Net(_) => "Net",
        Edit::Const(_) => "Const",
        Edit::Inst(_) => "Inst",
        Edit::DelInst(_) => "DelInst",
        Edit::DelNet(_) => "DelNet",
        Edit::Move(_) => "Move",
        Edit::Swap(_) => "Swap",
        Edit::Delay(_) => "Delay",
        Edit::Tick(_) => "Tick",
        Edit::Root(_) => "Root",
        Edit::Fork(_) => "Fork",
        Edit::DelFork(_) => "DelFork",
    }
}

/// A call in a word, but for the number of a version.
fn call_word(call: &Call) -> &'static str {
    match call {
        Call::Pin => "Pin",
        Call::PinAt(_) => "PinAt",
        Call::Rebase => "Rebase",
        Call::Publish => "Publish",
        Call::Make(edit) => edit_word(edit),
        Call::Drop => "Drop",
        Call::Draft => "Draft",
        Call::Period => "Period",
        Call::Cycle => "Cycle",
        Call::Arrival(event) if event.rising => "ArrivalRise",
        Call::Arrival(_) => "ArrivalFall",
        Call::Slack(_) => "Slack",
        Call::Report => "Report",
    }
}

/// A call in a word.
fn word_of(alloc: Global, call: &Call) -> Result<String, Fail> {
    let word = call_word(call);
    Ok(match call {
        Call::PinAt(number) => format!(in alloc; "{word}({number})")?,
        _ => format!(in alloc; "{word}")?,
    })
}

/// The calls of a script in words.
fn words_of(alloc: Global, script: &Script) -> Result<String, Fail> {
    let mut words = String::new(alloc);
    for call in script.list() {
        if !words.is_empty() {
            words.push(' ')?;
        }
        words.push_str(word_of(alloc, call)?.as_str())?;
    }
    Ok(words)
}

/// What a script is read as.
fn outcome(alloc: Global, row: &str) -> Result<String, Fail> {
    let text = row.replace(alloc, '|', "\n")?;
    let text = text.as_str().replace(alloc, '~', "\r")?;
    match read(alloc, text.as_bytes(), LINES, REPORTS) {
        Ok(script) => words_of(alloc, &script),
        Err(fault) => Ok(format!(in alloc; "Err({fault:?})")?),
    }
}

/// The first script that is not read as its row says.
fn first_amiss(alloc: Global) -> Result<Option<&'static str>, Fail> {
    'rows: for row in SCRIPTS.lines() {
        let (script, wanted) = row.split_once(" => ").ok_or("no arrow")?;
        if outcome(alloc, script)?.as_str() != wanted {
            return Ok(Some(row));
        }
    }
    Ok(None)
}

/// So many copies of a line behind a text.
fn push_lines(text: &mut String, line: &str, count: usize) -> Result<(), Fail> {
    for _copy in 0..count {
        text.push_str(line)?;
    }
    Ok(())
}

#[test]
fn reads_scripts(rt: HostRuntime) -> Result<(), Fail> {
    assert_eq!(rt; first_amiss(rt.alloc())?, None);
    Ok(())
}

#[test]
fn reads_as_many_calls_and_reports_as_are_left(rt: HostRuntime) -> Result<(), Fail> {
    for (reports, pins, last, wanted) in LONG_SCRIPTS {
        let mut text = String::new(rt.alloc());
        push_lines(&mut text, "report\n", reports)?;
        push_lines(&mut text, "pin\n", pins)?;
        text.push_str(last)?;
        let read = match read(rt.alloc(), text.as_bytes(), LINES, REPORTS) {
            Ok(script) => Ok(script.list().len()),
            Err(fault) => Err(fault),
        };
        assert_eq!(rt; read, wanted, "{reports} reports, {pins} pins, {last}");
    }
    Ok(())
}

#[test]
fn reads_what_calls_carry(rt: HostRuntime) -> Result<(), Fail> {
    let text = b"delay i1 A 15 10\narrival B-\nslack f1\n";
    let Ok(script) = read(rt.alloc(), text.as_slice(), LINES, REPORTS) else {
        return Err("no script".into());
    };
    let [
        Call::Make(Edit::Delay(delay)),
        Call::Arrival(event),
        Call::Slack(fork),
    ] = script.list()
    else {
        return Err("other calls".into());
    };
    assert!(rt; delay.inst.bytes() == b"i1".as_slice() && delay.pin.bytes() == b"A".as_slice());
    assert!(rt; (delay.rise, delay.fall) == (15, 10));
    assert!(rt; event.net.bytes() == b"B".as_slice() && !event.rising);
    assert!(rt; fork.bytes() == b"f1".as_slice());
    Ok(())
}

#[test]
fn tells_shared_calls(rt: HostRuntime) {
    for (call, shared) in [
        (Call::Pin, true),
        (Call::PinAt(0), true),
        (Call::Rebase, true),
        (Call::Publish, true),
        (Call::Drop, false),
        (Call::Report, false),
    ] {
        assert_eq!(rt; call.is_shared(), shared);
    }
}
