//! Rows of words and files, and what is written for them.
use cyc_port::{Gate, MemShelf, MemSink, NamedFile, OpenGate, SinkStop};
use cyc_text::{Text, push_decimal, read_number};
use engine::{Outcome, cyclone};
use std::alloc::{AllocError, Global};
use std::sync::Wait;
use std::test::Fail;
use std::thread::Threads;

pub(crate) const LIBRARY: &str =
    "[cell.BUF]\ninputs = [\"A\"]\noutput = \"Z\"\narcs = [{ from = \"A\", sense = \"pos\", rise = 9, fall = 8 }]\n[cell.INV]\ninputs = [\"A\"]\noutput = \"Z\"\narcs = [{ from = \"A\", sense = \"neg\", rise = 12, fall = 10 }]\n[cell.NOR2]\ninputs = [\"A\", \"B\"]\noutput = \"Z\"\narcs = [{ from = \"A\", sense = \"neg\", rise = 12, fall = 10 }, { from = \"B\", sense = \"neg\", rise = 12, fall = 10 }]\n[cell.X1]\ninputs = [\"A\"]\noutput = \"Z\"\narcs = [{ from = \"A\", sense = \"non\", rise = 7, fall = 5 }]\n[cell.R2]\ninputs = [\"A\", \"B\"]\noutput = \"Z\"\narcs = [{ from = \"B\", sense = \"neg\", rise = 12, fall = 10 }, { from = \"A\", sense = \"pos\", rise = 9, fall = 8 }]\n[cell.TIE]\ninputs = []\noutput = \"Z\"\narcs = []\n";

/// Three inverters in a ring, in the writing of the tables.
const BARE: &str = "net A|net B|net C|inst i1 INV A=A Z=B|inst i2 INV A=B Z=C|inst i3 INV A=C Z=A|";

/// The tick and the root of the ring.
const TOKEN: &str = "tick C- A+ 1|root A+|";

/// Words on each line, and what is written for them over the three inverters and a file of no edits.
const WORDS: &str = "\
expand => fault: usage|
 => fault: usage|
expand lib.toml => fault: usage|
expand lib.toml  => fault: usage|
expand  a.net => fault: usage|
expand -x a.net => fault: usage|
expand lib.toml - => fault: usage|
expand lib.toml a\tb => fault: usage|
expand lib.toml a\u{1f}b => fault: usage|
expand lib.toml a\u{7f} => fault: usage|
expand lib.toml a.net a.net => fault: usage|
expand lib.toml a.net --workers 1 => fault: usage|
expand lib.toml a-b => fault: read a-b|
expand none.toml none.net => fault: read none.toml|
expand lib.toml none.net => fault: read none.net|
expand a.net none.net => fault: library L1|
Expand lib.toml a.net => fault: usage|
analyze lib.toml a.net => fault: netlist H2|
analyze => fault: usage|
analyze lib.toml => fault: usage|
analyze lib.toml a.net a.net => fault: usage|
analyze lib.toml - => fault: usage|
analyze none.toml a.net => fault: read none.toml|
analyze lib.toml none.net => fault: read none.net|
analyze a.net none.net => fault: library L1|
analyze lib.toml lib.toml => fault: netlist line 1 syntax|
analyze lib.toml a.net --workers 1 => fault: netlist H2|
analyze lib.toml a.net --workers 64 => fault: netlist H2|
analyze lib.toml a.net --workers 0 => fault: usage|
analyze lib.toml a.net --workers 65 => fault: usage|
analyze lib.toml a.net --workers 01 => fault: usage|
analyze lib.toml a.net --workers => fault: usage|
analyze lib.toml a.net --workers 1 --workers 1 => fault: usage|
analyze --workers 1 lib.toml a.net => fault: usage|
apply => fault: usage|
apply lib.toml a.net => fault: usage|
apply lib.toml a.net a.edits a.edits => fault: usage|
apply lib.toml a.net -e => fault: usage|
apply lib.toml - a.edits => fault: usage|
apply none.toml none.net none.edits => fault: read none.toml|
apply a.net none.net none.edits => fault: library L1|
apply lib.toml none.net none.edits => fault: read none.net|
apply lib.toml lib.toml none.edits => fault: netlist line 1 syntax|
apply lib.toml a.net none.edits => fault: read none.edits|
apply lib.toml a.net lib.toml => fault: edits line 1 syntax|
apply lib.toml a.net a.edits => net A|net B|net C|inst i1 INV A=A Z=B|inst i2 INV A=B Z=C|inst i3 INV A=C Z=A|
bench => fault: usage|
bench 2 => fault: usage|
bench 4097 => fault: usage|
bench 03 => fault: usage|
bench +3 => fault: usage|
bench -3 => fault: usage|
bench 3 3 => fault: usage|
bench three => fault: usage|
bench 99999999999999999999 => fault: usage|
bench 3 => bench 3|nets 6 events 12 rules 18|period 180/1|cycle 12 180 1|arrivals -120/1 40/1|end|
bench 3 --workers 2 => bench 3|nets 6 events 12 rules 18|period 180/1|cycle 12 180 1|arrivals -120/1 40/1|end|
bench 3 --workers 64 => bench 3|nets 6 events 12 rules 18|period 180/1|cycle 12 180 1|arrivals -120/1 40/1|end|
bench 3 --workers 65 => fault: usage|
bench --workers 2 3 => fault: usage|
serve => fault: usage|
serve lib.toml a.net => fault: usage|
serve lib.toml a.net a.txt => fault: netlist H2|
serve none.toml none.net a.txt => fault: read none.toml|
serve lib.toml none.net a.txt => fault: read none.net|
serve lib.toml a.net --workers 64 a.txt b.txt => fault: netlist H2|
serve lib.toml a.net --workers 65 a.txt => fault: usage|
serve lib.toml a.net --workers 2 => fault: usage|
serve lib.toml a.net --workers => fault: usage|
serve lib.toml a.net a.txt --workers 2 => fault: usage|
serve lib.toml --workers 2 a.net a.txt => fault: usage|
serve lib.toml a.net --workers 2 --workers 2 a.txt => fault: usage|
serve lib.toml a.net a.txt - => fault: usage|
serve - a.net a.txt => fault: usage|
Serve lib.toml a.net a.txt => fault: usage|
";

/// Adds what a letter of the tables stands for, at a count from 0: `|` a line feed, `~` a carriage return, `^` a tab, `?` the byte
/// 255, `@` the count, `<` the one before it, which is the last before 0.
fn push_letter(bytes: &mut Vec<u8>, letter: u8, at: u64, times: u64) -> Result<(), AllocError> {
    match letter {
        b'|' => bytes.push(b'\n')?,
        b'~' => bytes.push(b'\r')?,
        b'^' => bytes.push(b'\t')?,
        b'?' => bytes.push(255)?,
        b'@' => push_decimal(bytes, at)?,
        b'<' => push_decimal(bytes, if at == 0 { times } else { at }.saturating_sub(1))?,
        _ => bytes.push(letter)?,
    }
    Ok(())
}

/// Adds what a text of the tables stands for, so many times.
fn push_times(bytes: &mut Vec<u8>, text: &str, times: u64) -> Result<(), AllocError> {
    for at in 0..times {
        for letter in text.bytes() {
            push_letter(bytes, letter, at, times)?;
        }
    }
    Ok(())
}

/// Adds what a piece of a text stands for: `$` at its front is the three inverters, `%` the ring with its tick and root; a number
/// and a colon at its front repeat it so often.
fn push_piece(bytes: &mut Vec<u8>, piece: &str) -> Result<(), AllocError> {
    if let Some(rest) = piece.strip_prefix("$") {
        push_times(bytes, BARE, 1)?;
        return push_times(bytes, rest, 1);
    }
    if let Some(rest) = piece.strip_prefix("%") {
        push_times(bytes, BARE, 1)?;
        push_times(bytes, TOKEN, 1)?;
        return push_times(bytes, rest, 1);
    }
    let (count, text) = piece.split_once(":").unwrap_or(("", piece));
    match read_number(count.as_bytes()) {
        Some(times) => push_times(bytes, text, times),
        None => push_times(bytes, piece, 1),
    }
}

/// The bytes that a text of the tables stands for: its pieces between semicolons.
pub(crate) fn made(alloc: Global, text: &str) -> Result<Vec<u8>, AllocError> {
    let mut bytes = Vec::new(alloc);
    for piece in text.split(';') {
        push_piece(&mut bytes, piece)?;
    }
    Ok(bytes)
}

/// The status of a written text, by its front.
pub(crate) fn status_of(text: &[u8]) -> u8 {
    if !text.starts_with(b"fault: ") {
        0
    } else if text.starts_with(b"fault: usage") {
        2
    } else if text.starts_with(b"fault: library") {
        3
    } else if text.starts_with(b"fault: netlist") || text.starts_with(b"fault: edits") {
        4
    } else if text.starts_with(b"fault: script") {
        5
    } else {
        6
    }
}

/// Whether this was written, with its status and nothing else.
pub(crate) fn is_written(outcome: &Outcome, sink: &MemSink, wanted: &[u8]) -> bool {
    sink.bytes() == wanted && outcome.status == status_of(wanted) && outcome.order.list().is_empty()
}

/// Room in a sink for each text of the tables.
pub(crate) const ROOM: usize = 8_388_608;

/// A file of a shelf.
pub(crate) fn file(alloc: Global, name: &str, bytes: &[u8]) -> Result<NamedFile, AllocError> {
    Ok(NamedFile {
        name: Text::of(alloc, name.as_bytes())?,
        bytes: Text::of(alloc, bytes)?,
        faults: 0,
        long: 0,
    })
}

/// A shelf with a library, a netlist and edits under the names of the tables, of which these calls fail.
pub(crate) fn shelf(
    alloc: Global,
    library: &[u8],
    netlist: &[u8],
    edits: &[u8],
    fail: Vec<u64>,
) -> Result<MemShelf, AllocError> {
    let mut files = Vec::new(alloc);
    files.push(file(alloc, "lib.toml", library)?)?;
    files.push(file(alloc, "a.net", netlist)?)?;
    files.push(file(alloc, "a.edits", edits)?)?;
    Ok(MemShelf::new(files, fail))
}

/// What the words on a line answer over a shelf, where a sink stops so and workers pass a gate.
pub(crate) fn run_past<R: Threads + Wait + Sync>(
    rt: &R,
    alloc: Global,
    line: &str,
    shelf: &mut MemShelf,
    stops: Vec<SinkStop>,
    gate: &(dyn Gate + Sync),
) -> Result<(Outcome, MemSink), AllocError> {
    let mut sink = MemSink::new(alloc, ROOM, stops)?;
    let mut words = Vec::new(alloc);
    for word in line.split(' ') {
        words.push(String::from_str(alloc, word)?)?;
    }
    let outcome = cyclone(rt, alloc, &words, shelf, &mut sink, gate);
    Ok((outcome, sink))
}

/// The same past an open gate.
pub(crate) fn run<R: Threads + Wait + Sync>(
    rt: &R,
    alloc: Global,
    line: &str,
    shelf: &mut MemShelf,
    stops: Vec<SinkStop>,
) -> Result<(Outcome, MemSink), AllocError> {
    run_past(rt, alloc, line, shelf, stops, &OpenGate)
}

/// Whether the words on a line write this over a library, a netlist and edits.
pub(crate) fn writes<R: Threads + Wait + Sync>(
    rt: &R,
    alloc: Global,
    line: &str,
    files: (&[u8], &[u8], &[u8]),
    wanted: &[u8],
) -> Result<bool, AllocError> {
    let (library, netlist, edits) = files;
    let mut shelf = shelf(alloc, library, netlist, edits, Vec::new(alloc))?;
    let (outcome, sink) = run(rt, alloc, line, &mut shelf, Vec::new(alloc))?;
    Ok(is_written(&outcome, &sink, wanted))
}

#[test]
fn words_and_files(rt: HostRuntime) -> Result<(), Fail> {
    let alloc = rt.alloc();
    let netlist = made(alloc, "$")?;
    for row in WORDS.lines() {
        let (line, text) = row.split_once(" => ").ok_or("no arrow")?;
        let wanted = made(alloc, text)?;
        let files = (LIBRARY.as_bytes(), netlist.as_slice(), b"".as_slice());
        assert!(rt; writes(&rt, alloc, line, files, &wanted)?, "{row}");
    }
    let mut shelf = MemShelf::new(Vec::new(alloc), Vec::new(alloc));
    let mut sink = MemSink::new(alloc, ROOM, Vec::new(alloc))?;
    let outcome = cyclone(&rt, alloc, &[], &mut shelf, &mut sink, &OpenGate);
    assert_eq!(rt; outcome.status, 2);
    Ok(())
}

/// Words, and the number of files that they read.
const READS: [(&str, u64); 5] = [
    ("expand lib.toml a.net", 2),
    ("analyze lib.toml a.net", 2),
    ("apply lib.toml a.net a.edits", 3),
    ("serve lib.toml a.net a.edits", 3),
    ("bench 3", 0),
];

/// The name of the file that is read at a call.
fn name_at(call: u64) -> &'static str {
    match call {
        0 => "fault: read lib.toml\n",
        1 => "fault: read a.net\n",
        _ => "fault: read a.edits\n",
    }
}

#[test]
fn each_file_is_read_once_in_turn(rt: HostRuntime) -> Result<(), Fail> {
    let alloc = rt.alloc();
    let netlist = made(alloc, "%")?;
    for (line, reads) in READS {
        // Where each of the reads fails, its file is told; the call after them is none of this run.
        for call in 0..=reads {
            let fail = vec![in alloc; call]?;
            let mut shelf = shelf(alloc, LIBRARY.as_bytes(), &netlist, b"", fail)?;
            let (outcome, sink) = run(&rt, alloc, line, &mut shelf, Vec::new(alloc))?;
            if call < reads {
                assert!(rt;
                    is_written(&outcome, &sink, name_at(call).as_bytes()),
                    "{line}"
                );
            } else {
                assert_eq!(rt; outcome.status, 0, "{line}");
            }
        }
    }
    // A refused library takes one call: the next run's first fails.
    let mut shelf = shelf(alloc, b"x = ", &netlist, b"", vec![in alloc; 1]?)?;
    let (outcome, _sink) = run(
        &rt,
        alloc,
        "analyze lib.toml a.net",
        &mut shelf,
        Vec::new(alloc),
    )?;
    assert_eq!(rt; outcome.status, 3);
    let (outcome, sink) = run(
        &rt,
        alloc,
        "analyze lib.toml a.net",
        &mut shelf,
        Vec::new(alloc),
    )?;
    assert!(rt; is_written(&outcome, &sink, name_at(0).as_bytes()));
    Ok(())
}

#[test]
fn a_text_is_written_at_once_and_may_be_cut_anywhere(rt: HostRuntime) -> Result<(), Fail> {
    let alloc = rt.alloc();
    let netlist = made(alloc, "%")?;
    for (line, _reads) in READS {
        let mut whole = shelf(alloc, LIBRARY.as_bytes(), &netlist, b"", Vec::new(alloc))?;
        // The second call of the sink would fail, and is not made.
        let stops = vec![in alloc; SinkStop { call: 1, taken: 0 }]?;
        let (outcome, text) = run(&rt, alloc, line, &mut whole, stops)?;
        assert_eq!(rt; outcome.status, 0, "{line}");
        for taken in 0..=text.bytes().len() {
            let stops = vec![in alloc; SinkStop { call: 0, taken }]?;
            let (outcome, sink) = run(&rt, alloc, line, &mut whole, stops)?;
            assert_eq!(rt; outcome.status, 7, "{line}");
            assert_eq!(rt; sink.bytes().len(), taken, "{line}");
            assert!(rt; text.bytes().starts_with(sink.bytes()), "{line}");
        }
    }
    let mut failing = shelf(alloc, LIBRARY.as_bytes(), &netlist, b"", vec![in alloc; 1]?)?;
    let stops = vec![in alloc; SinkStop { call: 0, taken: 3 }]?;
    let (outcome, sink) = run(&rt, alloc, "analyze lib.toml a.net", &mut failing, stops)?;
    assert_eq!(rt; outcome.status, 7);
    assert_eq!(rt; sink.bytes(), b"fau".as_slice());
    Ok(())
}
