//! Rows of lines, of netlist files and of files of edits, and what each is read as.
use cell_arcs::Library;
use cyc_text::LineSpan;
use netlist_model::{Edit, Netlist};
use netlist_reader::{LineFault, NetFault, read, read_edit, read_edits};
use std::alloc::Global;
use std::test::Fail;

const CELLS: &str =
    "[cell.INV]\ninputs = [\"A\"]\noutput = \"Z\"\narcs = [{ from = \"A\", sense = \"neg\", rise = 12, fall = 10 }]\n";

/// Lines, and whether each says an edit.
const LINES: &str = "\
net A => edit
\t net  A+ # one net => edit
net => syntax
net A B => syntax
const rst => edit
const rst 1 => syntax
inst i1 INV => edit
inst i1 INV A=A = A=B=C => edit
inst i1 => syntax
inst i1 INV A => syntax
delay i1 A 0 9999999999999999999 => edit
delay i1 A 0 10000000000000000000 => syntax
delay i1 A 007 10 => syntax
delay i1 A 10 => syntax
tick + A++ 1 => edit
tick A+ B 1 => syntax
tick A+ B- -1 => syntax
root A- => edit
root A => syntax
root A+ B+ => syntax
fork f A+ B+ A- 5 0 => edit
fork f A+ B+ A- 5 => syntax
fork f A+ B+ A- 5 0 0 => syntax
delinst i1 => edit
delinst => syntax
delinst i1 i2 => syntax
delnet A => edit
delnet => syntax
move i1 A B => edit
move i1 A => syntax
move i1 A=B => syntax
swap i1 INV => edit
swap i1 => syntax
delfork f => edit
delfork f g => syntax
Net A => syntax
nets A => syntax
#net A => syntax
";

/// Files, `|` for each line feed, and what each is read as: how many nets, constants, instances, ticks and forks, and the root.
const FILES: &str = "\
# one net||  \t|net A => Ok(([1, 0, 0, 0, 0], None))
 => Ok(([0, 0, 0, 0, 0], None))
net A|net B|const c|inst i INV A=A Z=B|delay i A 5 6|tick A+ B- 1|root B-|fork f A+ B- B+ 3 2 => Ok(([2, 1, 1, 1, 1], Some(3)))
net A\r|root A+\r| => Ok(([1, 0, 0, 0, 0], Some(0)))
net A\r|net B\r => Err(Statement(2, BadName))
net A|net A|nope => Err(Statement(2, NameTaken))
net A|nope|net A => Err(Syntax(2))
net A|root A+|# root|root A- => Err(Statement(4, RootTaken))
net A|tick A+ A- 1|tick A- A+ 1|tick A+ A- 2 => Err(Statement(4, TickTaken))
net A|tick A+ A- 1|tick A+ A- 0|tick A- A+ 0 => Err(Statement(4, OutOfRange(0)))
net A|root A++ => Err(Statement(2, UnknownEvent))
net A|root + => Err(Statement(2, UnknownEvent))
net A|inst i INV = => Err(Statement(2, UnknownPin))
net A|inst i INV A= => Err(Statement(2, UnknownNet))
net A|inst i INV Z=A A=A|inst j INV A=A Z=A => Err(Statement(3, DriverTaken(1)))
net A|delnet A => Err(Syntax(2))
net A|inst i INV A=A Z=A|delinst i => Err(Syntax(3))
net A|inst i INV A=A Z=A|move i A A => Err(Syntax(3))
net A|inst i INV A=A Z=A|swap i INV => Err(Syntax(3))
net A|fork f A+ A+ A+ 0 0|delfork f => Err(Syntax(3))
";

/// Files of edits, `|` for each line feed, and how many edits each says.
const EDITS: &str = "\
# none|| \t| => Ok(0)
 => Ok(0)
net A|delnet A\r||move i A B # on B|delfork f => Ok(4)
delinst i||delinst => Err(Syntax(3))
net|delinst => Err(Syntax(1))
";

/// How many edits a file says.
fn edits(alloc: Global, file: &str) -> Result<String, Fail> {
    let text = file.replace(alloc, '|', "\n")?;
    let count = match read_edits(alloc, text.as_bytes()) {
        Ok(edits) => Ok(edits.list().len()),
        Err(fault) => Err(fault),
    };
    Ok(format!(in alloc; "{count:?}")?)
}

/// The first file of edits that does not say what its row says.
fn first_edits_amiss(alloc: Global) -> Result<Option<&'static str>, Fail> {
    'rows: for row in EDITS.lines() {
        let (file, wanted) = row.split_once(" => ").ok_or("no arrow")?;
        let told = edits(alloc, file)?;
        if told.as_str() != wanted {
            return Ok(Some(row));
        }
    }
    Ok(None)
}

/// The edit of a line.
fn edit(alloc: Global, line: &str) -> Result<Edit, LineFault> {
    let bytes = line.as_bytes();
    let to = bytes.len();
    read_edit(
        alloc,
        bytes,
        LineSpan {
            from: 0,
            to,
            next: to,
        },
    )
}

/// What a line is found to be.
fn kind(alloc: Global, line: &str) -> &'static str {
    match edit(alloc, line) {
        Ok(edit) => {
            drop(edit);
            "edit"
        }
        Err(LineFault::Syntax) => "syntax",
        Err(LineFault::Memory) => "memory",
    }
}

/// The first line that is not what its row says.
fn first_line_amiss(alloc: Global) -> Result<Option<&'static str>, Fail> {
    'rows: for row in LINES.lines() {
        let (line, wanted) = row.split_once(" => ").ok_or("no arrow")?;
        if kind(alloc, line) != wanted {
            return Ok(Some(row));
        }
    }
    Ok(None)
}

/// How many of each there are, and the root.
fn counts(net: &Netlist) -> ([usize; 5], Option<u32>) {
    let counts = [
        net.net_count(),
        net.const_count(),
        net.inst_count(),
        net.tick_count(),
        net.fork_count(),
    ];
    (counts, net.root())
}

/// How many of each a file says, and the root.
fn counts_of(
    alloc: Global,
    library: &Library,
    bytes: &[u8],
) -> Result<([usize; 5], Option<u32>), NetFault> {
    match read(alloc, library, bytes) {
        Ok(net) => {
            let counts = counts(&net);
            drop(net);
            Ok(counts)
        }
        Err(fault) => Err(fault),
    }
}

/// What a file is read as.
fn outcome(alloc: Global, library: &Library, file: &str) -> Result<String, Fail> {
    let text = file.replace(alloc, '|', "\n")?;
    let counts = counts_of(alloc, library, text.as_bytes());
    Ok(format!(in alloc; "{counts:?}")?)
}

/// The first file that is not read as its row says.
fn first_file_amiss(alloc: Global, library: &Library) -> Result<Option<&'static str>, Fail> {
    'rows: for row in FILES.lines() {
        let (file, wanted) = row.split_once(" => ").ok_or("no arrow")?;
        let outcome = outcome(alloc, library, file)?;
        if outcome.as_str() != wanted {
            return Ok(Some(row));
        }
    }
    Ok(None)
}

#[test]
fn tells_edits_from_other_lines(rt: HostRuntime) -> Result<(), Fail> {
    assert_eq!(rt; first_line_amiss(rt.alloc())?, None);
    Ok(())
}

/// The first pin of an instance, and its net.
fn first_pin(edit: &Edit) -> Option<(&[u8], &[u8])> {
    match edit {
        Edit::Inst(inst) => match inst.pins.list().first() {
            Some(pin) => Some((pin.pin.bytes(), pin.net.bytes())),
            None => None,
        },
        _ => None,
    }
}

/// The net of a root, and whether it rises.
fn root(edit: &Edit) -> Option<(&[u8], bool)> {
    match edit {
        Edit::Root(event) => Some((event.net.bytes(), event.rising)),
        _ => None,
    }
}

#[test]
fn parts_a_pin_word_at_its_first_equals_sign(rt: HostRuntime) -> Result<(), Fail> {
    let edit = edit(rt.alloc(), "inst i1 INV A=B=C")?;
    assert_eq!(rt;
        first_pin(&edit),
        Some((b"A".as_slice(), b"B=C".as_slice()))
    );
    drop(edit);
    Ok(())
}

#[test]
fn parts_an_event_word_at_its_last_byte(rt: HostRuntime) -> Result<(), Fail> {
    let edit = edit(rt.alloc(), "root A+-")?;
    assert_eq!(rt; root(&edit), Some((b"A+".as_slice(), false)));
    drop(edit);
    Ok(())
}

#[test]
fn reads_files(rt: HostRuntime) -> Result<(), Fail> {
    let library = Library::read(rt.alloc(), CELLS.as_bytes())?;
    let amiss = first_file_amiss(rt.alloc(), &library);
    drop(library);
    assert_eq!(rt; amiss?, None);
    Ok(())
}

#[test]
fn reads_files_of_edits(rt: HostRuntime) -> Result<(), Fail> {
    assert_eq!(rt; first_edits_amiss(rt.alloc())?, None);
    Ok(())
}
