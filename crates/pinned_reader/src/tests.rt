//! Rows of netlists and edits, and what is answered.
use crate::{Pinned, Row, RowFault};
use cell_arcs::Library;
use cyc_text::Text;
use edit_log::apply;
use netlist_model::{Edit, Edits, EventName};
use netlist_reader::{read, read_edits};
use potentials::Plain;
use std::alloc::{AllocError, Global};
use std::sync::Arc;
use std::test::Fail;
use std::thread::Threads;

const INVERTER: &str =
    "[cell.INV]\ninputs = [\"A\"]\noutput = \"Z\"\narcs = [{ from = \"A\", sense = \"neg\", rise = 12, fall = 10 }]\n";

/// Three inverters in a ring, `|` for each line feed.
const RING: &str =
    "net A|net B|net C|inst i1 INV A=A Z=B|inst i2 INV A=B Z=C|inst i3 INV A=C Z=A|tick C- A+ 1|root A+|";

/// A netlist, `%` for the ring, and edits, `|` for each line feed. Then what the row of the netlist after the edits answers: its
/// number of edits, its period, its critical cycle, the arrivals of C- and D+, and the slacks of f1 and f2; or why there is no row.
const ROWS: &str = "\
%; => 0 66/1 [1, 2, 5, 0, 3, 4] Some(54) None None None
%fork f1 A+ C+ A- 0 0; => 0 66/1 [1, 2, 5, 0, 3, 4] Some(54) None Some(10) None
%fork f2 A+ C+ A- 3 0|fork f1 A+ C+ A- 0 0; => 0 66/1 [1, 2, 5, 0, 3, 4] Some(54) None Some(10) Some(7)
%fork f1 A+ C+ A- 0 0;delay i1 A 15 10 => 1 69/1 [1, 2, 5, 0, 3, 4] Some(57) None Some(10) None
%fork f1 A+ C+ A- 0 0;delfork f1|fork f2 A+ C+ A- 0 0 => 2 66/1 [1, 2, 5, 0, 3, 4] Some(54) None None Some(10)
%;delinst i3 => Whole(Undriven(1))
%;tick C- A+ 0 => Dead(EventList { items: [0, 3, 4, 1, 2, 5] })
%;net D|inst i4 INV A=B Z=D => NoReturn(6)
%;root A- => 1 66/1 [1, 2, 5, 0, 3, 4] Some(22) None None None
net Z; => Whole(Undriven(1))
; => Whole(NoRoot)
";

/// The library of the tables.
fn cells(alloc: Global) -> Result<Arc<Library, Global>, Fail> {
    let library = Library::read(alloc, INVERTER.as_bytes())?;
    Ok(Arc::new(alloc, library)?)
}

fn edits_of(alloc: Global, text: &str) -> Result<Edits, Fail> {
    let text = text.replace(alloc, '|', "\n")?;
    Ok(read_edits(alloc, text.as_bytes())?)
}

/// A handle on a row.
fn shared(alloc: Global, row: Row) -> Result<Arc<Row, Global>, RowFault> {
    Ok(Arc::new(alloc, row)?)
}

/// The row of a netlist.
fn base<R: Threads + Sync>(
    rt: &R,
    alloc: Global,
    library: &Arc<Library, Global>,
    text: &str,
) -> Result<Result<Arc<Row, Global>, RowFault>, Fail> {
    let text = text.replace(alloc, '|', "\n")?;
    let netlist = read(alloc, library, text.as_bytes())?;
    match Row::base(rt, alloc, library, &netlist, &Plain) {
        Ok(row) => Ok(shared(alloc, row)),
        Err(fault) => Ok(Err(fault)),
    }
}

/// The row after these edits, if they apply.
fn after<R: Threads + Sync>(
    rt: &R,
    alloc: Global,
    parent: &Row,
    edits: &[Edit],
) -> Result<Arc<Row, Global>, RowFault> {
    let Ok(_made) = apply(&parent.library, &parent.netlist, edits) else {
        return Err(RowFault::Memory);
    };
    shared(alloc, Row::next(rt, alloc, parent, edits, &Plain)?)
}

fn event(alloc: Global, net: &str, rising: bool) -> Result<EventName, AllocError> {
    let net = Text::of(alloc, net.as_bytes())?;
    Ok(EventName { net, rising })
}

/// What a row answers.
fn answers(alloc: Global, row: Arc<Row, Global>) -> Result<String, Fail> {
    let edits = row.edits.list().len();
    let pinned = Pinned { number: 0, row };
    let top = pinned.period().top();
    let bottom = pinned.period().bottom();
    let cycle = pinned.cycle();
    let fall = pinned.arrival(&event(alloc, "C", false)?);
    let rise = pinned.arrival(&event(alloc, "D", true)?);
    let one = pinned.slack(b"f1");
    let two = pinned.slack(b"f2");
    Ok(format!(in alloc; "{edits} {top}/{bottom} {cycle:?} {fall:?} {rise:?} {one:?} {two:?}")?)
}

/// What a row answers, or why there is none.
fn told(alloc: Global, row: Result<Arc<Row, Global>, RowFault>) -> Result<String, Fail> {
    match row {
        Ok(row) => answers(alloc, row),
        Err(fault) => Ok(format!(in alloc; "{fault:?}")?),
    }
}

/// What the row after edits answers, or the parent's where there are none.
fn told_after<R: Threads + Sync>(
    rt: &R,
    alloc: Global,
    parent: Arc<Row, Global>,
    edits: &str,
) -> Result<String, Fail> {
    if edits.is_empty() {
        return answers(alloc, parent);
    }
    let edits = edits_of(alloc, edits)?;
    told(alloc, after(rt, alloc, &parent, edits.list()))
}

/// What is told of a netlist and edits.
fn told_of<R: Threads + Sync>(
    rt: &R,
    alloc: Global,
    library: &Arc<Library, Global>,
    given: &str,
) -> Result<String, Fail> {
    let (netlist, edits) = given.split_once(';').ok_or("no edits")?;
    let netlist = netlist.replace(alloc, '%', RING)?;
    match base(rt, alloc, library, &netlist)? {
        Ok(row) => told_after(rt, alloc, row, edits),
        Err(fault) => told(alloc, Err(fault)),
    }
}

#[test]
fn rows_and_their_answers(rt: HostRuntime) -> Result<(), Fail> {
    let library = cells(rt.alloc())?;
    'rows: for row in ROWS.lines() {
        let (given, wanted) = row.split_once(" => ").ok_or("no arrow")?;
        let told = told_of(&rt, rt.alloc(), &library, given)?;
        assert_eq!(rt; told.as_str(), wanted);
    }
    Ok(())
}
