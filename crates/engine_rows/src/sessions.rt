//! Rows of `serve`.
use crate::words::{LIBRARY, file, made, run, run_past, status_of};
use cyc_port::{Gate, MemShelf, MemSink, SinkStop};
use engine::Outcome;
use std::alloc::{AllocError, Global};
use std::sync::Wait;
use std::sync::atomic::{AtomicU64, Ordering};
use std::test::Fail;
use std::thread;
use std::thread::Threads;

/// A netlist and the scripts of sessions on each line, and what is written for them: the replies along the order, or the line of a
/// fault. The gate holds the shared calls in that order as far as it sees; what it does not see is replied the same in any order.
const SESSIONS: &str = "\
% =>  => order|session 1|
% =>  => pin| => # none|| => order 2|session 1|session 2|1 pinned 0|session 3|
% => pin|period|delay i1 A 15 10|period|publish|period|pin 0|period| => order 1 1 1|session 1|1 pinned 0|2 period 66/1|3 edited 1|4 period 66/1|5 published 1|6 period 69/1|7 pinned 0|8 period 66/1|
% => pin|delay i1 A 15 10|publish|rebase|publish|period| => pin|delay i2 A 12 14|publish|rebase|publish|period| => order 1 2 1 2 1 2 1 2|session 1|1 pinned 0|2 edited 1|3 published 1|4 rebased 1|5 refused empty draft|6 period 69/1|session 2|1 pinned 0|2 edited 1|3 refused stale 1|4 rebased 1|5 published 2|6 period 73/1|
net A|net B|net C|net D|inst i1 INV A=A Z=B|inst i2 INV A=B Z=C|inst i4 INV A=B Z=D|inst i3 NOR2 A=C B=D Z=A|tick C- A+ 1|tick D- A+ 1|root A+| => pin|move i3 B C|tick D- A+ 0|delinst i4|delnet D|publish|pin| => pin|delay i1 A 12 10|delay i4 A 13 10|period|period|period|publish|rebase|draft|pin| => order 1 2 1 2 2 2 1|session 1|1 pinned 0|2 edited 1|3 edited 2|4 edited 3|5 edited 4|6 published 1|7 pinned 1|session 2|1 pinned 0|2 edited 1|3 edited 2|4 period 66/1|5 period 66/1|6 period 66/1|7 refused stale 1|8 refused edit 2 S5|9 draft 2|10 refused draft open|
% => period|draft|delay i1 A 1 1|drop|rebase|publish| => order 1 1|session 1|1 refused not pinned|2 draft 0|3 refused not pinned|4 dropped 0|5 refused not pinned|6 refused not pinned|
% => draft|arrival A+|slack f|cycle|report| => drop| => order|session 1|1 draft 0|2 refused not pinned|3 refused not pinned|4 refused not pinned|5 refused not pinned|session 2|1 dropped 0|
%fork f A+ C+ A- 11 0| => pin|cycle|arrival C-|arrival D-|slack f|slack g|delinst i9|pin 1| => order 1 1|session 1|1 pinned 0|2 cycle 6 66 1 A+|3 arrival 54/1|4 refused no event|5 slack -1/1 missed|6 refused no fork|7 refused S5|8 refused no version 0|
% => pin|report|period| => order 1|session 1|1 pinned 0|2 report|period 66/1|cycle 6 66 1|step 1 A+ B- 10 0|step 2 B- C+ 12 0|step 5 C+ A- 10 0|step 0 A- B+ 12 0|step 3 B+ C- 10 0|step 4 C- A+ 12 1|arrival A+ 0/1|arrival A- 32/1|arrival B+ 44/1|arrival B- 10/1|arrival C+ 22/1|arrival C- 54/1|end|3 period 66/1|
% => pin|tick C- A+ 0|publish| => order 1 1|session 1|1 pinned 0|2 edited 1|3 refused V3 6 A+|
% => pin|delinst i1|publish| => order 1 1|session 1|1 pinned 0|2 edited 1|3 refused H1 B|
% => pin|net D|pin 7|pin|rebase|publish|drop|publish|drop| => order 1 1 1 1 1 1|session 1|1 pinned 0|2 edited 1|3 refused draft open|4 refused draft open|5 rebased 0|6 refused H1 D|7 dropped 1|8 refused empty draft|9 dropped 0|
% => pin|tick A+ A+ 1|publish|net D|publish|inst i4 INV A=A Z=D|publish|tick A+ A+ 0|publish| => order 1 1 1 1 1|session 1|1 pinned 0|2 edited 1|3 refused H3 2|4 edited 2|5 refused H1 D|6 edited 3|7 refused H3 2|8 edited 4|9 refused V2 D+|
% => pin|delay i1 A 15 10|publish|pin 9| => pin|publish|delinst i1|publish|drop|tick C- A+ 0|publish|drop|delay i2 A 12 14|publish| => order 1 2 1 2 2 2 2 1|session 1|1 pinned 0|2 edited 1|3 published 1|4 refused no version 1|session 2|1 pinned 0|2 refused empty draft|3 edited 1|4 refused H1 B|5 dropped 1|6 edited 1|7 refused V3 6 A+|8 dropped 1|9 edited 1|10 refused stale 1|
% => pin|pin x| => fault: script 1 line 2 syntax|
% => # one| => |pin|foo| => fault: script 2 line 3 syntax|
% => pin|period|delay i1 A 15 => fault: script 1 line 3 syntax|
% => 4097:pin| => fault: script 1 P2 lines|
% => 4096:pin| =>  => draft| => fault: script 3 P2 lines|
% => 65:report| => fault: script 1 P2 reports|
% => 32:report| => 32:report|;drop|report| => fault: script 2 P2 reports|
% => 4096:pin| => draft 1| => fault: script 2 line 1 syntax|
$root A+| => foo| => fault: netlist V3 A+ B- C+ A- B+ C-|
$ => 4097:pin| => fault: netlist H2|
";

/// The name of the file of a script.
fn script_name(alloc: Global, number: usize) -> Result<String, AllocError> {
    format!(in alloc; "{number}.txt")
}

/// A shelf with the cells of the tables, a netlist and scripts, and the words that serve them.
fn sessions(alloc: Global, files: &[&str]) -> Result<(MemShelf, String), AllocError> {
    let mut named = Vec::new(alloc);
    let mut words = String::from_str(alloc, "serve lib.toml a.net")?;
    named.push(file(alloc, "lib.toml", LIBRARY.as_bytes())?)?;
    for (number, text) in files.iter().enumerate() {
        let bytes = made(alloc, text)?;
        if number == 0 {
            named.push(file(alloc, "a.net", &bytes)?)?;
        } else {
            let name = script_name(alloc, number)?;
            words.push_str(" ")?;
            words.push_str(name.as_str())?;
            named.push(file(alloc, name.as_str(), &bytes)?)?;
        }
    }
    Ok((MemShelf::new(named, Vec::new(alloc)), words))
}

/// The first line of what is written for an order.
fn order_line(alloc: Global, outcome: &Outcome) -> Result<String, AllocError> {
    let mut line = String::from_str(alloc, "order")?;
    for session in outcome.order.list() {
        line.push_str(format!(in alloc; " {session}")?.as_str())?;
    }
    line.push_str("\n")?;
    Ok(line)
}

/// The bytes of the first line, and those behind it.
fn cut_line(text: &[u8]) -> (&[u8], &[u8]) {
    match text.iter().position(|byte| *byte == b'\n') {
        Some(end) => (&text[..end], &text[end..]),
        None => (text, &[]),
    }
}

/// How often a session is named, by its digit, on the line of an order.
fn calls_on(line: &[u8], session: u8) -> usize {
    let mut calls = 0usize;
    for byte in line {
        if *byte == session {
            calls = calls.saturating_add(1);
        }
    }
    calls
}

/// Whether this was written, with its status and its order, and nothing else. The order is the one wanted or another of the same calls.
fn is_served(
    alloc: Global,
    outcome: &Outcome,
    sink: &MemSink,
    wanted: &[u8],
) -> Result<bool, AllocError> {
    if outcome.status != status_of(wanted) {
        return Ok(false);
    }
    if outcome.status > 0 {
        return Ok(outcome.order.list().is_empty() && sink.bytes() == wanted);
    }
    let (order, replies) = cut_line(sink.bytes());
    let (wanted_order, wanted_replies) = cut_line(wanted);
    if replies != wanted_replies || order.len() != wanted_order.len() {
        return Ok(false);
    }
    for session in b"123456789" {
        if calls_on(order, *session) != calls_on(wanted_order, *session) {
            return Ok(false);
        }
    }
    Ok(
        sink.bytes()
            .starts_with(order_line(alloc, outcome)?.as_bytes()),
    )
}

/// How often a gate looks before it gives up.
const LOOKS: u64 = 1_000_000_000;

/// Waits until the count is at least so much; else the gate is stuck.
fn wait_for(count: &AtomicU64, wanted: u64, stuck: &AtomicU64) {
    for _ in 0..LOOKS {
        if count.load(Ordering::SeqCst) >= wanted {
            return;
        }
        thread::yield_now();
    }
    stuck.fetch_add(1, Ordering::SeqCst);
}

/// Holds the shared calls of sessions 1 and 2 in the order of a line: each pass waits until the session of the call before has passed once
/// more, and so has made that call. That the last call of a session is made is not seen, and not waited for.
#[derive(Drop)]
struct InOrder<'l> {
    line: &'l [u8],
    first: AtomicU64,
    second: AtomicU64,
    stuck: AtomicU64,
}

impl<'l> InOrder<'l> {
    /// The gate for the order on the first line of a text.
    fn of(text: &'l [u8]) -> InOrder<'l> {
        InOrder {
            line: cut_line(text).0,
            first: AtomicU64::new(0),
            second: AtomicU64::new(0),
            stuck: AtomicU64::new(0),
        }
    }

    /// How often the other session has passed once the call before this one of a session is made; 0 where that is not seen. Sessions are
    /// told by their digits.
    fn passes_before(&self, session: u8, other: u8, calls: u64) -> u64 {
        let mut mine = 0u64;
        let mut others = 0u64;
        let mut others_last = false;
        for byte in self.line {
            if *byte == session {
                if mine == calls {
                    let all = calls_on(self.line, other) as u64;
                    return if others_last && others < all {
                        others + 1
                    } else {
                        0
                    };
                }
                mine = mine.saturating_add(1);
                others_last = false;
            } else if *byte == other {
                others = others.saturating_add(1);
                others_last = true;
            }
        }
        0
    }
}

impl<'l> Gate for InOrder<'l> {
    fn pass(&self, who: u64) {
        if who == 1 {
            let calls = self.first.fetch_add(1, Ordering::SeqCst);
            wait_for(
                &self.second,
                self.passes_before(b'1', b'2', calls),
                &self.stuck,
            );
        } else if who == 2 {
            let calls = self.second.fetch_add(1, Ordering::SeqCst);
            wait_for(
                &self.first,
                self.passes_before(b'2', b'1', calls),
                &self.stuck,
            );
        }
    }
}

/// Whether sessions over the files of a row, of which the last is the text that is wanted, write that.
fn is_row<R: Threads + Wait + Sync>(rt: &R, alloc: Global, row: &str) -> Result<bool, Fail> {
    let mut files = Vec::new(alloc);
    for part in row.split(" => ") {
        files.push(part)?;
    }
    let text = files.pop().ok_or("no text")?;
    let wanted = made(alloc, text)?;
    let (mut shelf, words) = sessions(alloc, &files)?;
    let gate = InOrder::of(&wanted);
    let (outcome, sink) = run_past(
        rt,
        alloc,
        words.as_str(),
        &mut shelf,
        Vec::new(alloc),
        &gate,
    )?;
    Ok(gate.stuck.load(Ordering::SeqCst) == 0 && is_served(alloc, &outcome, &sink, &wanted)?)
}

#[test]
fn sessions_and_their_replies(rt: HostRuntime) -> Result<(), Fail> {
    for row in SESSIONS.lines() {
        assert!(rt; is_row(&rt, rt.alloc(), row)?, "{row}");
    }
    Ok(())
}

/// Holds the first pass of sessions 1 and 2 until both have called.
#[derive(Drop)]
struct Together {
    calls: AtomicU64,
    stuck: AtomicU64,
}

impl Gate for Together {
    fn pass(&self, who: u64) {
        if who <= 2 {
            self.calls.fetch_add(1, Ordering::SeqCst);
            wait_for(&self.calls, 2, &self.stuck);
        }
    }
}

#[test]
fn sessions_run_beside_each_other(rt: HostRuntime) -> Result<(), Fail> {
    let alloc = rt.alloc();
    let gate = Together {
        calls: AtomicU64::new(0),
        stuck: AtomicU64::new(0),
    };
    let (mut shelf, words) = sessions(alloc, &["%", "pin|", "pin|"])?;
    let (outcome, _sink) = run_past(
        &rt,
        alloc,
        words.as_str(),
        &mut shelf,
        Vec::new(alloc),
        &gate,
    )?;
    assert_eq!(rt; outcome.status, 0);
    assert_eq!(rt; gate.stuck.load(Ordering::SeqCst), 0);
    Ok(())
}

/// Holds the first call of a worker behind the first pass of session 1, until session 2 has passed twice, which it does not do before.
#[derive(Drop)]
struct Analysing {
    first: AtomicU64,
    second: AtomicU64,
    marked: AtomicU64,
    stuck: AtomicU64,
}

impl Gate for Analysing {
    fn pass(&self, who: u64) {
        if who == 1 {
            self.first.fetch_add(1, Ordering::SeqCst);
        } else if who == 2 {
            if self.second.fetch_add(1, Ordering::SeqCst) == 0 {
                wait_for(&self.marked, 1, &self.stuck);
            }
        } else if self.first.load(Ordering::SeqCst) > 0
            && self.marked.fetch_add(1, Ordering::SeqCst) == 0
        {
            wait_for(&self.second, 2, &self.stuck);
        }
    }
}

#[test]
fn no_draft_is_analysed_within_a_turn(rt: HostRuntime) -> Result<(), Fail> {
    let alloc = rt.alloc();
    let gate = Analysing {
        first: AtomicU64::new(0),
        second: AtomicU64::new(0),
        marked: AtomicU64::new(0),
        stuck: AtomicU64::new(0),
    };
    let (mut shelf, words) = sessions(alloc, &["%", "pin|delay i1 A 15 10|publish|", "pin|pin|"])?;
    let line = words.as_str().replace(alloc, "a.net", "a.net --workers 1")?;
    let (outcome, sink) = run_past(
        &rt,
        alloc,
        line.as_str(),
        &mut shelf,
        Vec::new(alloc),
        &gate,
    )?;
    assert_eq!(rt; outcome.status, 0);
    assert_eq!(rt; gate.stuck.load(Ordering::SeqCst), 0);
    assert!(rt; gate.marked.load(Ordering::SeqCst) > 0);
    assert!(rt; sink.bytes().starts_with(b"order 1 2 "));
    Ok(())
}

/// A script of 255 publishes, and what it calls then.
const FULL: &str =
    "pin|;255:delay i1 A 12 10|publish|;delay i1 A 12 10|publish|drop|pin 0|delay i1 A 12 10|publish|drop|pin 256|";

/// What it is replied behind the publishes.
const FULL_REPLIES: &str =
    "512 edited 1|513 refused full|514 dropped 1|515 pinned 0|516 edited 1|517 refused stale 255|518 dropped 1|519 refused no version 255|";

#[test]
fn as_many_versions_as_there_may_be(rt: HostRuntime) -> Result<(), Fail> {
    let alloc = rt.alloc();
    let mut wanted = made(alloc, "order;260: 1;|session 1|1 pinned 0|")?;
    for version in 1..=255u64 {
        let call = 2 * version;
        let next = call + 1;
        let lines = format!(in alloc; "{call} edited 1\n{next} published {version}\n")?;
        wanted.extend_from_slice(lines.as_bytes())?;
    }
    wanted.extend_from_slice(&made(alloc, FULL_REPLIES)?)?;
    let (mut shelf, words) = sessions(alloc, &["%", FULL])?;
    let (outcome, sink) = run(&rt, alloc, words.as_str(), &mut shelf, Vec::new(alloc))?;
    assert!(rt; is_served(alloc, &outcome, &sink, &wanted)?);
    Ok(())
}

#[test]
fn at_most_32_scripts(rt: HostRuntime) -> Result<(), Fail> {
    let alloc = rt.alloc();
    let mut files = Vec::new(alloc);
    files.push("%")?;
    'scripts: for _ in 0..32 {
        files.push("draft|")?;
    }
    let (mut shelf, words) = sessions(alloc, &files)?;
    let (outcome, sink) = run(&rt, alloc, words.as_str(), &mut shelf, Vec::new(alloc))?;
    assert_eq!(rt; outcome.status, 0);
    assert!(rt; sink.bytes().ends_with(b"session 32\n1 draft 0\n"));
    files.push("draft|")?;
    let (mut shelf, words) = sessions(alloc, &files)?;
    let (outcome, sink) = run(&rt, alloc, words.as_str(), &mut shelf, Vec::new(alloc))?;
    assert!(rt; is_served(alloc, &outcome, &sink, b"fault: usage\n")?);
    Ok(())
}

#[test]
fn a_cut_text_has_its_order_told(rt: HostRuntime) -> Result<(), Fail> {
    let alloc = rt.alloc();
    let (mut shelf, words) = sessions(alloc, &["%", "pin|", "pin|pin|"])?;
    let stops = vec![in alloc; SinkStop { call: 0, taken: 9 }]?;
    let (outcome, sink) = run(&rt, alloc, words.as_str(), &mut shelf, stops)?;
    assert_eq!(rt; outcome.status, 7);
    assert_eq!(rt; sink.bytes().len(), 9);
    assert!(rt;
        order_line(alloc, &outcome)?
            .as_bytes()
            .starts_with(sink.bytes())
    );
    assert_eq!(rt; outcome.order.list().len(), 3);
    Ok(())
}

/// Counts who passes: the sessions 1 and 2, and workers.
#[derive(Drop)]
struct Counted {
    first: AtomicU64,
    second: AtomicU64,
    workers: AtomicU64,
}

impl Gate for Counted {
    fn pass(&self, who: u64) {
        let count = match who {
            1 => &self.first,
            2 => &self.second,
            _ => &self.workers,
        };
        count.fetch_add(1, Ordering::SeqCst);
    }
}

#[test]
fn sessions_and_workers_pass_the_gate(rt: HostRuntime) -> Result<(), Fail> {
    let alloc = rt.alloc();
    let gate = Counted {
        first: AtomicU64::new(0),
        second: AtomicU64::new(0),
        workers: AtomicU64::new(0),
    };
    let (mut shelf, words) = sessions(alloc, &["%", "pin|draft|pin|", "pin|period|"])?;
    let line = words.as_str().replace(alloc, "a.net", "a.net --workers 3")?;
    let (outcome, _sink) = run_past(
        &rt,
        alloc,
        line.as_str(),
        &mut shelf,
        Vec::new(alloc),
        &gate,
    )?;
    assert_eq!(rt; outcome.order.list().len(), 3);
    assert_eq!(rt; gate.first.load(Ordering::SeqCst), 2);
    assert_eq!(rt; gate.second.load(Ordering::SeqCst), 1);
    assert!(rt; gate.workers.load(Ordering::SeqCst) >= 3);
    Ok(())
}
