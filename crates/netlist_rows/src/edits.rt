//! Rows of netlists and edits, and what lists of the edits make.
ghost use Rattle.std.specs.Prelude.{IfOk};
ghost use Rattle.netlist_model.specs.Sound.{Fits};

use cell_arcs::Library;
use cyc_text::Text;
use edit_log::{apply, copy_edits};
use netlist_model::{Edit, EditFault, Edits, Netlist};
use netlist_reader::{read, read_edits, write};
use std::alloc::Global;
use std::test::Fail;

/// An inverter and a gate of two inputs.
const CELLS: &str = "\
[cell.INV]
inputs = ['A']
output = 'Z'
arcs = [{ from = 'A', sense = 'neg', rise = 12, fall = 10 }]
[cell.NOR2]
inputs = ['A', 'B']
output = 'Z'
arcs = [{ from = 'A', sense = 'neg', rise = 12, fall = 10 }, { from = 'B', sense = 'neg', rise = 12, fall = 10 }]
";

/// A ring of three inverters.
const RING: &str = "\
net A
net B
net C
inst i1 INV A=A Z=B
inst i2 INV A=B Z=C
inst i3 INV A=C Z=A
tick C- A+ 1
root A+
";

/// The ring, where one inverter has delays of its own.
const DELAYED: &str = "\
net A
net B
net C
inst i1 INV A=A Z=B
inst i2 INV A=B Z=C
inst i3 INV A=C Z=A
delay i1 A 15 10
tick C- A+ 1
root A+
";

/// The ring with another root.
const TURNED: &str = "\
net A
net B
net C
inst i1 INV A=A Z=B
inst i2 INV A=B Z=C
inst i3 INV A=C Z=A
tick C- A+ 1
root B-
";

/// The ring with a fork.
const FORKED: &str = "\
net A
net B
net C
inst i1 INV A=A Z=B
inst i2 INV A=B Z=C
inst i3 INV A=C Z=A
tick C- A+ 1
root A+
fork f1 A+ C+ A- 0 0
";

/// The ring with a fork, behind a net that nothing uses.
const SPARE: &str = "\
net U
net A
net B
net C
inst i1 INV A=A Z=B
inst i2 INV A=B Z=C
inst i3 INV A=C Z=A
tick C- A+ 1
root A+
fork f1 A+ C+ A- 0 0
";

/// A ring with two ways from B to A.
const TWIN: &str = "\
net A
net B
net C
net D
inst i1 INV A=A Z=B
inst i2 INV A=B Z=C
inst i4 INV A=B Z=D
inst i3 NOR2 A=C B=D Z=A
tick C- A+ 1
tick D- A+ 1
root A+
";

/// The ring with one of the two ways left, on both inputs of the gate.
const SINGLE: &str = "\
net A
net B
net C
inst i1 INV A=A Z=B
inst i2 INV A=B Z=C
inst i3 NOR2 A=C B=C Z=A
tick C- A+ 1
root A+
";

/// The netlist of a file.
fn netlist(alloc: Global, library: &Library, file: &str) -> Result<Netlist, Fail>
    ensures { IfOk result (λ net. Fits library.now net.insts) }
{
    match read(alloc, library, file.as_bytes()) {
        Ok(net) => Ok(net),
        Err(_) => Err("the netlist is refused".into()),
    }
}

/// The edits of a file.
fn edits(alloc: Global, file: &str) -> Result<Edits, Fail> {
    match read_edits(alloc, file.as_bytes()) {
        Ok(edits) => Ok(edits),
        Err(_) => Err("a line is no edit".into()),
    }
}

/// The text of a fault.
fn fault_text(alloc: Global, fault: EditFault) -> Result<Text, Fail> {
    let text = format!(in alloc; "{fault:?}")?;
    Ok(Text::of(alloc, text.as_bytes())?)
}

/// What the edits make of a netlist: its text, or the fault.
fn made(alloc: Global, library: &Library, net: &Netlist, edits: &[Edit]) -> Result<Text, Fail>
    requires { Fits library.now net.now.insts }
{
    match apply(library, net, edits) {
        Ok(made) => {
            let text = write(alloc, library, &made);
            drop(made);
            Ok(text?)
        }
        Err(fault) => fault_text(alloc, fault),
    }
}

/// What copies of the edits make of a netlist.
fn made_by_copies(
    alloc: Global,
    library: &Library,
    net: &Netlist,
    edits: &[Edit],
) -> Result<Text, Fail>
    requires { Fits library.now net.now.insts }
{
    let copies = copy_edits(alloc, edits)?;
    let made = made(alloc, library, net, copies.list());
    drop(copies);
    made
}

/// Wants that copies of the edits make this text or fault of a netlist.
fn expect_made(
    alloc: Global,
    library: &Library,
    net: &Netlist,
    edits: &[Edit],
    wanted: &str,
) -> Result<(), Fail>
    requires { Fits library.now net.now.insts }
{
    let made = made_by_copies(alloc, library, net, edits)?;
    if made.bytes() == wanted.as_bytes() {
        Ok(())
    } else {
        Err("another outcome".into())
    }
}

/// Wants that the edits of a file make this text or fault of a netlist.
fn expect_of(
    alloc: Global,
    library: &Library,
    net: &Netlist,
    lines: &str,
    wanted: &str,
) -> Result<(), Fail>
    requires { Fits library.now net.now.insts }
{
    match edits(alloc, lines) {
        Ok(edits) => expect_made(alloc, library, net, edits.list(), wanted),
        Err(fail) => Err(fail),
    }
}

/// Wants that the edits of a file make this text or fault of the netlist of a file.
fn expect(
    alloc: Global,
    library: &Library,
    file: &str,
    lines: &str,
    wanted: &str,
) -> Result<(), Fail> {
    let net = netlist(alloc, library, file)?;
    let met = expect_of(alloc, library, &net, lines, wanted);
    drop(net);
    met
}

/// Edits of a ring.
fn edits_of_a_ring(alloc: Global, library: &Library) -> Result<(), Fail> {
    expect(alloc, library, RING, "", RING)?;
    expect(alloc, library, RING, "delay i1 A 15 10", DELAYED)?;
    expect(
        alloc,
        library,
        RING,
        "delay i1 A 15 10\ndelinst i9",
        "At(2, UnknownInst)",
    )?;
    expect(
        alloc,
        library,
        RING,
        "delinst i9\nroot B-\ndelnet A",
        "At(1, UnknownInst)",
    )?;
    expect(alloc, library, RING, "root B-", TURNED)?;
    expect(alloc, library, RING, "move i1 Z B", RING)?;
    expect(alloc, library, RING, "move i1 Z A", "At(1, DriverTaken(3))")?;
    expect(
        alloc,
        library,
        RING,
        "const k\nmove i1 Z k",
        "At(2, ConstDriven)",
    )
}

/// Edits that swap, take away and move.
fn edits_that_take_away(alloc: Global, library: &Library) -> Result<(), Fail> {
    expect(alloc, library, DELAYED, "swap i1 INV", RING)?;
    expect(alloc, library, FORKED, "swap i1 INV\ndelfork f1", RING)?;
    expect(alloc, library, SPARE, "delnet U", FORKED)?;
    expect(
        alloc,
        library,
        TWIN,
        "move i3 B C\ntick D- A+ 0\ndelinst i4\ndelnet D",
        SINGLE,
    )?;
    expect(alloc, library, TWIN, "delnet D", "At(1, StillUsed)")?;
    expect(alloc, library, TWIN, "swap i3 INV", "At(1, BadPins)")
}

/// Each row.
fn all_rows(alloc: Global, library: &Library) -> Result<(), Fail> {
    edits_of_a_ring(alloc, library)?;
    edits_that_take_away(alloc, library)
}

#[test]
fn makes_what_each_row_says(rt: HostRuntime) -> Result<(), Fail> {
    let library = Library::read(rt.alloc(), CELLS.as_bytes())?;
    let met = all_rows(rt.alloc(), &library);
    drop(library);
    met
}
