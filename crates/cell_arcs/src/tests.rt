// Rows of libraries, and what each is read as.
use crate::{Arcs, CellArc, Library, LibraryFault, Pins, Sense};
use cyc_text::{Limit, Text};
use std::alloc::{AllocError, Global};
use std::test::Fail;

/// The library of the Muller ring.
const RING: &str =
    "[cell.C2]\ninputs = [\"A\", \"B\"]\noutput = \"Z\"\narcs = [{ from = \"A\", sense = \"pos\", rise = 20, fall = 18 }, { from = \"B\", sense = \"pos\", rise = 20, fall = 18 }]\n\n[cell.INV]\ninputs = [\"A\"]\noutput = \"Z\"\narcs = [{ from = \"A\", sense = \"neg\", rise = 12, fall = 10 }]\n";

/// A text on each line, with the number of its cells or its fault.
const JUDGED: &str = "\
# => Ok(0)
area = 12 => Ok(0)
cell = {} => Ok(0)
\u{feff}cell = {} => Ok(0)
x = { a = 9223372036854775807, b = '', } => Ok(0)
x =  => Err(BadToml)
x = { a = 1, a = 1 } => Err(BadToml)
x = [9223372036854775808] => Err(BadToml)
cell = 3 => Err(BadShape(0))
cell = [{}] => Err(BadShape(0))
cell.A = 3 => Err(BadShape(1))
cell.A = [{}] => Err(BadShape(1))
cell.A = {output='Z',arcs=[]} => Err(BadShape(1))
cell.A = {inputs=[],arcs=[]} => Err(BadShape(1))
cell.A = {inputs=[],output='Z'} => Err(BadShape(1))
cell.A = {inputs=[],output='Z',arcs=[],area=12,function='C'} => Ok(1)
cell.'' = 3 => Err(BadName(1, 0))
cell = {b = 3, 'A B' = 3} => Err(BadName(1, 0))
cell = {'b b' = 3, B = 3} => Err(BadShape(1))
cell = {b = 3, B = {inputs=[],output='Z',arcs=[]}} => Err(BadShape(2))
cell = {'b b' = 3, B = {inputs=[],output='Z',arcs=[]}} => Err(BadName(2, 0))
cell.A = {inputs=3,output='Z',arcs=[]} => Err(BadShape(1))
cell.A = {inputs=['A', 1],output='Z',arcs=[]} => Err(BadShape(1))
cell.A = {inputs=[],output=3,arcs=[]} => Err(BadShape(1))
cell.A = {inputs=[],output='Z',arcs={}} => Err(BadShape(1))
cell.A = {inputs=[],output='Z',arcs=[3]} => Err(BadShape(1))
cell.A = {inputs=['A'],output='Z',arcs=[{from='A',sense='pos',rise=1,fall=2}, {}]} => Err(BadShape(1))
cell.A = {inputs=['A'],output='Z',arcs=[{sense='pos',rise=1,fall=2}]} => Err(BadShape(1))
cell.A = {inputs=['A'],output='Z',arcs=[{from=1,sense='pos',rise=1,fall=2}]} => Err(BadShape(1))
cell.A = {inputs=['A'],output='Z',arcs=[{from='A',rise=1,fall=2}]} => Err(BadShape(1))
cell.A = {inputs=['A'],output='Z',arcs=[{from='A',sense=1,rise=1,fall=2}]} => Err(BadShape(1))
cell.A = {inputs=['A'],output='Z',arcs=[{from='A',sense='pos',fall=2}]} => Err(BadShape(1))
cell.A = {inputs=['A'],output='Z',arcs=[{from='A',sense='pos',rise=1.0,fall=2}]} => Err(BadShape(1))
cell.A = {inputs=['A'],output='Z',arcs=[{from='A',sense='pos',rise=true,fall=2}]} => Err(BadShape(1))
cell.A = {inputs=['A'],output='Z',arcs=[{from='A',sense='pos',rise=1}]} => Err(BadShape(1))
cell.A = {inputs=['A'],output='Z',arcs=[{from='A',sense='pos',rise=1,fall=1.0}]} => Err(BadShape(1))
cell.A = {inputs=['A'],output='Z',arcs=[{from='A',sense='pos',rise=1,fall=false}]} => Err(BadShape(1))
cell.A = {inputs=['A'],output='Z',arcs=[{from='A',sense='pos',rise=99999999999999999999,fall=2}]} => Err(BadToml)
cell.A = {inputs=['0', '1', '2', '3', '4', '5', '6', '7', '8', '9', 'a', 'b', 'c', 'd', 'e', 'f'],output='Z',arcs=[]} => Ok(1)
cell.A = {inputs=['0', '1', '2', '3', '4', '5', '6', '7', '8', '9', 'a', 'b', 'c', 'd', 'e', 'f', 'g'],output='',arcs=[]} => Err(TooMany(Inputs, 1))
cell.A = {inputs=['', 'B'],output='Z',arcs=[]} => Err(BadName(1, 1))
cell.A = {inputs=['A', 'A B'],output='Z',arcs=[]} => Err(BadName(1, 2))
cell.A = {inputs=['A', 'A', ''],output='Z',arcs=[]} => Err(BadName(1, 3))
cell.A = {inputs=['A', 'A'],output='Z+',arcs=[]} => Err(BadName(1, 3))
cell.A = {inputs=['A', 'A'],output='Z',arcs=[]} => Err(RepeatedPin(1, 2))
cell.A = {inputs=['A', 'B', 'A', 'B'],output='A',arcs=[]} => Err(RepeatedPin(1, 3))
cell.A = {inputs=['A', 'B'],output='A',arcs=[]} => Err(RepeatedPin(1, 3))
cell.A = {inputs=['A', 'B'],output='B',arcs=[{from='C',sense='pos',rise=1,fall=2}]} => Err(RepeatedPin(1, 3))
cell.A = {inputs=['A', 'B', 'C'],output='Z',arcs=[{from='B',sense='non',rise=0,fall=1000000}, {from='A',sense='neg',rise=1000000,fall=0}]} => Ok(1)
cell.A = {inputs=['A'],output='Z',arcs=[{from='A',sense='pos',rise=1,fall=2,load='x'}]} => Ok(1)
cell.A = {inputs=['A'],output='Z',arcs=[{from='Z',sense='x',rise=-1,fall=2}]} => Err(UnknownPin(1, 1))
cell.A = {inputs=['A'],output='Z',arcs=[{from='A',sense='pos',rise=1,fall=2}, {from='B',sense='pos',rise=1,fall=2}]} => Err(UnknownPin(1, 2))
cell.A = {inputs=['A', 'B'],output='Z',arcs=[{from='A',sense='pos',rise=1,fall=2}, {from='B',sense='pos',rise=1,fall=2}, {from='A',sense='x',rise=-1,fall=2}]} => Err(RepeatedArc(1, 3))
cell.A = {inputs=['A'],output='Z',arcs=[{from='A',sense='Pos',rise=-1,fall=2}]} => Err(BadSense(1, 1))
cell.A = {inputs=['A', 'B'],output='Z',arcs=[{from='A',sense='pos',rise=1,fall=2}, {from='B',sense='',rise=1,fall=2}]} => Err(BadSense(1, 2))
cell.A = {inputs=['A'],output='Z',arcs=[{from='A',sense='pos',rise=-1,fall=2}]} => Err(BadDelay(1, 1))
cell.A = {inputs=['A'],output='Z',arcs=[{from='A',sense='pos',rise=1000001,fall=2}]} => Err(BadDelay(1, 1))
cell.A = {inputs=['A'],output='Z',arcs=[{from='A',sense='pos',rise=1,fall=-1}]} => Err(BadDelay(1, 1))
cell.A = {inputs=['A', 'B'],output='Z',arcs=[{from='A',sense='pos',rise=1,fall=2}, {from='B',sense='pos',rise=1,fall=1000001}]} => Err(BadDelay(1, 2))
x = [[[[[[[[[[[[[[[[[[[[[[[[[[[[[[[[[[[[[[[[[[[[[[[[[[[[[[[[[[[[[[[[[[[[[[[[[[[[[[[[]]]]]]]]]]]]]]]]]]]]]]]]]]]]]]]]]]]]]]]]]]]]]]]]]]]]]]]]]]]]]]]]]]]]]]]]]]]]]]]] => Ok(0)
a.a.a.a.a.a.a.a.a.a.a.a.a.a.a.a.a.a.a.a.a.a.a.a.a.a.a.a.a.a.a.a.a.a.a.a.a.a.a.a.a.a.a.a.a.a.a.a.a.a.a.a.a.a.a.a.a.a.a.a.a.a.a.a.a.a.a.a.a.a.a.a.a.a.a.a.a.a.a.a = 1 => Ok(0)
x = [[[[[[[[[[[[[[[[[[[[[[[[[[[[[[[[[[[[[[[[[[[[[[[[[[[[[[[[[[[[[[[[[[[[[[[[[[[[[[[[[]]]]]]]]]]]]]]]]]]]]]]]]]]]]]]]]]]]]]]]]]]]]]]]]]]]]]]]]]]]]]]]]]]]]]]]]]]]]]]]]] => Err(BadToml)
a.a.a.a.a.a.a.a.a.a.a.a.a.a.a.a.a.a.a.a.a.a.a.a.a.a.a.a.a.a.a.a.a.a.a.a.a.a.a.a.a.a.a.a.a.a.a.a.a.a.a.a.a.a.a.a.a.a.a.a.a.a.a.a.a.a.a.a.a.a.a.a.a.a.a.a.a.a.a.a.a = 1 => Err(BadToml)";

/// The number of cells of the text, or its fault.
fn judge(alloc: Global, text: &[u8]) -> Result<usize, LibraryFault> {
    Ok(Library::read(alloc, text)?.count())
}

/// Whether the text of a row is judged as the row says.
fn holds(alloc: Global, row: &str) -> Result<bool, AllocError> {
    let Some((text, judged)) = row.split_once(" => ") else {
        return Ok(false);
    };
    let answer = format!(in alloc; "{:?}", judge(alloc, text.as_bytes()))?;
    Ok(answer.as_str() == judged)
}

/// The first row that does not hold.
fn first_wrong(alloc: Global, rows: &str) -> Result<Option<&str>, AllocError> {
    for row in rows.lines() {
        if !holds(alloc, row)? {
            return Ok(Some(row));
        }
    }
    Ok(None)
}

/// The text of so many cells without inputs.
fn cells(alloc: Global, count: usize) -> Result<String, AllocError> {
    let mut text = String::new(alloc);
    for i in 0..count {
        let cell = format!(in alloc; "[cell.c{i}]\ninputs = []\noutput = 'Z'\narcs = []\n")?;
        text.push_str(cell.as_str())?;
    }
    Ok(text)
}

#[test]
fn judges_texts(rt: HostRuntime) -> Result<(), Fail> {
    assert_eq!(rt; first_wrong(rt.alloc(), JUDGED)?, None);
    Ok(())
}

#[test]
fn judges_bytes_and_sizes(rt: HostRuntime) -> Result<(), Fail> {
    let alloc = rt.alloc();
    let many = LibraryFault::TooMany(Limit::Cells, 0);
    assert_eq!(rt; judge(alloc, b"# \xff"), Err(LibraryFault::BadToml));
    assert_eq!(rt; judge(alloc, cells(alloc, 1024)?.as_bytes()), Ok(1024));
    assert_eq!(rt; judge(alloc, cells(alloc, 1025)?.as_bytes()), Err(many));
    Ok(())
}

#[test]
fn lends_the_inverter(rt: HostRuntime) -> Result<(), Fail> {
    let library = Library::read(rt.alloc(), RING.as_bytes())?;
    assert_eq!(rt; library.find(b"XOR"), None);
    assert_eq!(rt; library.find(b"INV"), Some(1));
    let cell = library.cell(1);
    assert_eq!(rt; cell.inputs.list().len(), 1);
    let inverter = CellArc {
        from: 0,
        sense: Sense::Neg,
        rise: 12,
        fall: 10,
    };
    assert_eq!(rt; cell.arcs.list(), [inverter].as_slice());
    Ok(())
}

#[test]
fn makes_pins_and_arcs(rt: HostRuntime) -> Result<(), Fail> {
    let pins = Pins::of(Vec::<Text>::new(rt.alloc()));
    let arcs = Arcs::of(Vec::<CellArc>::new(rt.alloc()));
    assert_eq!(rt; pins.list().len() + arcs.list().len(), 0);
    Ok(())
}
