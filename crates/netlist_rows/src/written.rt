//! Rows of netlist files, and what is written of each.
use cell_arcs::Library;
use cyc_text::Text;
use netlist_reader::{read, write};
use std::alloc::Global;
use std::test::Fail;

/// An inverter, and a gate whose second input has the first arc.
const CELLS: &str = "\
[cell.INV]
inputs = ['A']
output = 'Z'
arcs = [{ from = 'A', sense = 'neg', rise = 12, fall = 10 }]
[cell.NOR2]
inputs = ['A', 'B']
output = 'Z'
arcs = [{ from = 'B', sense = 'neg', rise = 12, fall = 10 }, { from = 'A', sense = 'neg', rise = 12, fall = 10 }]
";

/// Files, and what is written of each. `|` stands for a line feed, `~` for a carriage return.
const FILES: &str = "\
# nothing~|~| => 
 => 
net A~|net  B # two~|~|net\tC~| inst i1 INV A=A Z=B ~|inst i2 INV  A=B Z=C~|inst i3 INV Z=A A=C~|root A+~|tick C- A+ 1~| => net A|net B|net C|inst i1 INV A=A Z=B|inst i2 INV A=B Z=C|inst i3 INV A=C Z=A|tick C- A+ 1|root A+|
net A|net B|net C|inst i1 INV A=A Z=B|inst i2 INV A=B Z=C|inst i3 INV A=C Z=A|tick C- A+ 1|root A+|delay i1 A 15 10| => net A|net B|net C|inst i1 INV A=A Z=B|inst i2 INV A=B Z=C|inst i3 INV A=C Z=A|delay i1 A 15 10|tick C- A+ 1|root A+|
const rst|net A|inst n NOR2 Z=A B=rst A=A|delay n A 7 8|fork g A- A+ A- 0 0|delay n B 0 1000000|fork f A+ A- A+ 5 15|tick A- A+ 2|tick A+ A- 1|tick A- A+ 0|net B => net A|net B|const rst|inst n NOR2 A=A B=rst Z=A|delay n B 0 1000000|delay n A 7 8|tick A+ A- 1|fork g A- A+ A- 0 0|fork f A+ A- A+ 5 15|
net A|net B|inst z INV A=A Z=B|inst a INV A=B Z=A|delay a A 0 0|delay z A 12 10| => net A|net B|inst z INV A=A Z=B|inst a INV A=B Z=A|delay z A 12 10|delay a A 0 0|
net long_name_of_64_bytes[0]/1234567890123456789012345678901234567.x => net long_name_of_64_bytes[0]/1234567890123456789012345678901234567.x|
";

/// The text that a row stands for.
fn text_of(alloc: Global, row: &str) -> Result<String, Fail> {
    let text = row.replace(alloc, '|', "\n")?;
    Ok(text.as_str().replace(alloc, '~', "\r")?)
}

/// What is written of the bytes of a file.
fn written_of(alloc: Global, library: &Library, bytes: &[u8]) -> Result<Text, Fail> {
    match read(alloc, library, bytes) {
        Ok(netlist) => {
            let text = write(alloc, library, &netlist);
            drop(netlist);
            Ok(text?)
        }
        Err(_) => Err("refused".into()),
    }
}

/// What is written of the file that a row stands for.
fn written(alloc: Global, library: &Library, row: &str) -> Result<Text, Fail> {
    let file = text_of(alloc, row)?;
    written_of(alloc, library, file.as_bytes())
}

/// The first file of which something else is written than its row says.
fn first_amiss(alloc: Global, library: &Library) -> Result<Option<&'static str>, Fail> {
    'rows: for row in FILES.lines() {
        let (file, wanted) = row.split_once(" => ").ok_or("no arrow")?;
        let text = written(alloc, library, file)?;
        let wanted = text_of(alloc, wanted)?;
        if text.bytes() != wanted.as_bytes() {
            return Ok(Some(row));
        }
    }
    Ok(None)
}

#[test]
fn writes_the_canonical_text(rt: HostRuntime) -> Result<(), Fail> {
    let library = Library::read(rt.alloc(), CELLS.as_bytes())?;
    let amiss = first_amiss(rt.alloc(), &library);
    drop(library);
    assert_eq!(rt; amiss?, None);
    Ok(())
}
