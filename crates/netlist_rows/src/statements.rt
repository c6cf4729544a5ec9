//! Rows of statements and questions on one netlist, and what each answers.
ghost use Rattle.netlist_model.specs.Sound.{Fits};

use cell_arcs::Library;
use cyc_text::Text;
use netlist_model::{
    DelayOf, Edit, EventName, ForkText, InstOf, MoveOf, Netlist, PinNet, PinNets, SwapOf, TickOf,
};
use std::alloc::{AllocError, Global};
use std::test::Fail;

/// An inverter, a gate of two inputs, and one of 16 inputs with 64 rules.
const CELLS: &str =
    "[cell.INV]\ninputs = [\"A\"]\noutput = \"Z\"\narcs = [{ from = \"A\", sense = \"neg\", rise = 12, fall = 10 }]\n\n[cell.NOR2]\ninputs = [\"A\", \"B\"]\noutput = \"Z\"\narcs = [{ from = \"A\", sense = \"neg\", rise = 12, fall = 10 }, { from = \"B\", sense = \"neg\", rise = 12, fall = 10 }]\n\n[cell.N16]\ninputs = [\"I0\", \"I1\", \"I2\", \"I3\", \"I4\", \"I5\", \"I6\", \"I7\", \"I8\", \"I9\", \"I10\", \"I11\", \"I12\", \"I13\", \"I14\", \"I15\"]\noutput = \"Z\"\narcs = [{ from = \"I0\", sense = \"non\", rise = 7, fall = 5 }, { from = \"I1\", sense = \"non\", rise = 7, fall = 5 }, { from = \"I2\", sense = \"non\", rise = 7, fall = 5 }, { from = \"I3\", sense = \"non\", rise = 7, fall = 5 }, { from = \"I4\", sense = \"non\", rise = 7, fall = 5 }, { from = \"I5\", sense = \"non\", rise = 7, fall = 5 }, { from = \"I6\", sense = \"non\", rise = 7, fall = 5 }, { from = \"I7\", sense = \"non\", rise = 7, fall = 5 }, { from = \"I8\", sense = \"non\", rise = 7, fall = 5 }, { from = \"I9\", sense = \"non\", rise = 7, fall = 5 }, { from = \"I10\", sense = \"non\", rise = 7, fall = 5 }, { from = \"I11\", sense = \"non\", rise = 7, fall = 5 }, { from = \"I12\", sense = \"non\", rise = 7, fall = 5 }, { from = \"I13\", sense = \"non\", rise = 7, fall = 5 }, { from = \"I14\", sense = \"non\", rise = 7, fall = 5 }, { from = \"I15\", sense = \"non\", rise = 7, fall = 5 }]\n";

/// Statements and questions on one netlist in order, with what they answer.
const STATEMENTS: &str = "\
net A => Ok(())
net B => Ok(())
net A+ => Err(BadName)
net B => Err(NameTaken)
const rst => Ok(())
const  => Err(BadName)
const A => Err(NameTaken)
const rst => Err(NameTaken)
net rst => Err(NameTaken)
inst i1 INV A=A Z=B => Ok(())
inst i+ INV A=A Z=B => Err(BadName)
inst i1 XOR A=A Z=B => Err(NameTaken)
inst i2 XOR A=Q Z=B => Err(UnknownCell)
inst i2 NOR2 Q=Q Z=B => Err(UnknownPin)
inst i2 NOR2 A=Q Z=B => Err(UnknownNet)
inst i2 NOR2 A=A A=Q Z=B => Err(BadPins)
inst i2 NOR2 A=A Z=rst => Err(BadPins)
inst i2 INV A=A => Err(BadPins)
inst i2 INV A=A Z=rst => Err(ConstDriven)
inst i2 INV A=A Z=B => Err(DriverTaken(1))
inst i2 INV Z=A A=rst => Ok(())
delay i1 A 1000000 0 => Ok(())
delay i9 Q 1 1 => Err(UnknownInst)
delay i1 Q 1000001 1 => Err(UnknownPin)
delay i1 Z 1000001 1 => Err(NoArc)
delay i1 A 1000001 1000002 => Err(OutOfRange(1000001))
delay i1 A 1 1000002 => Err(OutOfRange(1000002))
tick A+ B+ 15 => Ok(())
tick A+ rst+ 16 => Err(UnknownEvent)
tick A+ B+ 16 => Err(OutOfRange(16))
tick B+ A+ 0 => Err(OutOfRange(0))
tick A+ B+ 1 => Err(TickTaken)
? offset A+ B+ => 15
? offset B+ A+ => 0
tick B+ A+ 1 => Ok(())
tick A+ B+ 0 => Ok(())
? offset A+ B+ => 0
? offset B+ A+ => 1
root rst+ => Err(UnknownEvent)
root A- => Ok(())
root A+ => Ok(())
fork f A+ A+ B- 1000000 15 => Ok(())
fork  Q+ A+ B- 1 1 => Err(BadName)
fork f Q+ A+ B- 1 1 => Err(ForkTaken)
fork g A+ Q+ B- 1000001 1 => Err(UnknownEvent)
fork g A+ A+ B- 1000001 16 => Err(OutOfRange(1000001))
fork g A+ A+ B- 1 16 => Err(OutOfRange(16))
? stands => [2, 1, 2, 1, 1]";

/// Statements that move pins, swap cells and take away, on two paths round a ring behind a net that nothing uses.
const DELETIONS: &str = "\
net U => Ok(())
net A => Ok(())
net B => Ok(())
net C => Ok(())
net D => Ok(())
net P => Ok(())
const k => Ok(())
const rst => Ok(())
inst i1 INV A=A Z=B => Ok(())
inst i2 INV A=B Z=C => Ok(())
inst i4 INV A=B Z=D => Ok(())
inst i3 NOR2 A=C B=rst Z=A => Ok(())
tick C- A+ 1 => Ok(())
tick P- A+ 2 => Ok(())
tick A+ P- 3 => Ok(())
root P+ => Ok(())
fork f A+ C+ A- 0 0 => Ok(())
fork g A+ A+ P- 0 0 => Ok(())
move i9 Q Q => Err(UnknownInst)
move i3 Q Q => Err(UnknownPin)
move i3 B Q => Err(UnknownNet)
move i3 Z rst => Err(ConstDriven)
move i3 Z B => Err(DriverTaken(1))
move i3 Z A => Ok(())
move i3 Z P => Ok(())
inst i5 INV A=A Z=P => Err(DriverTaken(4))
move i3 Z A => Ok(())
move i3 B D => Ok(())
swap i9 XOR => Err(UnknownInst)
swap i3 XOR => Err(UnknownCell)
swap i3 INV => Err(BadPins)
delay i3 B 5 5 => Ok(())
swap i3 NOR2 => Ok(())
delnet Q => Err(UnknownNet)
delnet rst => Ok(())
const rst => Ok(())
move i3 B rst => Ok(())
delnet rst => Err(StillUsed)
delnet k => Ok(())
move i3 B C => Ok(())
delnet rst => Ok(())
delnet P => Err(StillUsed)
tick A+ P- 0 => Ok(())
delnet P => Err(StillUsed)
tick P- A+ 0 => Ok(())
delnet P => Err(StillUsed)
root A+ => Ok(())
delnet P => Err(StillUsed)
delfork h => Err(UnknownFork)
delfork g => Ok(())
delnet P => Ok(())
delnet D => Err(StillUsed)
delinst i9 => Err(UnknownInst)
delinst i4 => Ok(())
delnet D => Ok(())
delnet U => Ok(())
delnet A => Err(StillUsed)
? offset C- A+ => 1
inst i5 INV A=A Z=A => Err(DriverTaken(3))
? stands => [3, 0, 3, 1, 1]
? copy => [3, 0, 3, 1, 1]
? whole => Ok(())
? rules => 8";

/// A netlist with nothing in it.
const NOTHING: &str = "? whole => Err(NoRoot)";

/// An inverter whose input none drives.
const UNDRIVEN: &str = "\
net A => Ok(())
net B => Ok(())
inst i1 INV A=A Z=B => Ok(())
? whole => Err(Undriven(1))";

/// A ring of three inverters.
const RING: &str = "\
net A => Ok(())
net B => Ok(())
net C => Ok(())
inst i1 INV A=A Z=B => Ok(())
inst i2 INV A=B Z=C => Ok(())
inst i3 INV A=C Z=A => Ok(())
tick C- A+ 1 => Ok(())
root A+ => Ok(())
? whole => Ok(())
? rules => 6
tick A+ C+ 1 => Ok(())
tick B+ A+ 1 => Ok(())
? whole => Err(IdleTick(2))";

/// A gate with an input on a constant.
const RESET: &str = "\
net A => Ok(())
net Z => Ok(())
const rst => Ok(())
inst i1 INV A=Z Z=A => Ok(())
inst n1 NOR2 A=A B=rst Z=Z => Ok(())
? rules => 4
root A+ => Ok(())
tick A- Z+ 1 => Ok(())
? whole => Ok(())
tick A+ Z+ 1 => Ok(())
? whole => Err(IdleTick(2))";

/// What stands around the ring of 16-input gates.
const GATES: &str = "\
root m0+ => Ok(())
? rules => 131072
? whole => Ok(())
net w => Ok(())
inst wi INV A=m0 Z=w => Ok(())
? whole => Err(TooManyRules(131074))";

fn text(alloc: Global, word: Option<&str>) -> Result<Text, Fail> {
    let word = word.ok_or("a word is missing")?;
    Ok(Text::of(alloc, word.as_bytes())?)
}

fn number(word: Option<&str>) -> Result<u64, Fail> {
    Ok(word.ok_or("a number is missing")?.parse::<u64>()?)
}

fn event(alloc: Global, word: Option<&str>) -> Result<EventName, Fail> {
    let word = word.ok_or("an event is missing")?;
    let (net, rising) = match word.strip_suffix('+') {
        Some(net) => (net, true),
        None => (word.strip_suffix('-').ok_or("no event")?, false),
    };
    Ok(EventName {
        net: Text::of(alloc, net.as_bytes())?,
        rising,
    })
}

fn pin(alloc: Global, word: &str) -> Result<PinNet, Fail> {
    let (pin, net) = word.split_once('=').ok_or("no pin word")?;
    Ok(PinNet {
        pin: Text::of(alloc, pin.as_bytes())?,
        net: Text::of(alloc, net.as_bytes())?,
    })
}

fn pins(alloc: Global, words: &str) -> Result<PinNets, Fail> {
    let mut pins = Vec::new(alloc);
    for word in words.split(' ') {
        pins.push(pin(alloc, word)?)?;
    }
    Ok(PinNets::of(pins))
}

fn inst(alloc: Global, words: &str) -> Result<Edit, Fail> {
    let (name, rest) = words.split_once(' ').ok_or("no cell")?;
    let (cell, rest) = rest.split_once(' ').ok_or("no pins")?;
    let name = Text::of(alloc, name.as_bytes())?;
    let cell = Text::of(alloc, cell.as_bytes())?;
    let pins = pins(alloc, rest)?;
    Ok(Edit::Inst(InstOf { name, cell, pins }))
}

fn fork(alloc: Global, words: &str) -> Result<Edit, Fail> {
    let mut words = words.split(' ');
    let name = words.next();
    let root = words.next();
    let fast = words.next();
    let slow = words.next();
    let margin = number(words.next())?;
    let offset = number(words.next())?;
    let name = text(alloc, name)?;
    let root = event(alloc, root)?;
    let fast = event(alloc, fast)?;
    let slow = event(alloc, slow)?;
    Ok(Edit::Fork(ForkText {
        name,
        root,
        fast,
        slow,
        margin,
        offset,
    }))
}

fn delay(alloc: Global, words: &str) -> Result<Edit, Fail> {
    let mut words = words.split(' ');
    let inst = text(alloc, words.next())?;
    let pin = text(alloc, words.next())?;
    let rise = number(words.next())?;
    let fall = number(words.next())?;
    Ok(Edit::Delay(DelayOf {
        inst,
        pin,
        rise,
        fall,
    }))
}

fn tick(alloc: Global, words: &str) -> Result<Edit, Fail> {
    let mut words = words.split(' ');
    let source = event(alloc, words.next())?;
    let target = event(alloc, words.next())?;
    let count = number(words.next())?;
    Ok(Edit::Tick(TickOf {
        source,
        target,
        count,
    }))
}

fn pin_move(alloc: Global, words: &str) -> Result<Edit, Fail> {
    let mut words = words.split(' ');
    let inst = text(alloc, words.next())?;
    let pin = text(alloc, words.next())?;
    let net = text(alloc, words.next())?;
    Ok(Edit::Move(MoveOf { inst, pin, net }))
}

fn swap(alloc: Global, words: &str) -> Result<Edit, Fail> {
    let mut words = words.split(' ');
    let inst = text(alloc, words.next())?;
    let cell = text(alloc, words.next())?;
    Ok(Edit::Swap(SwapOf { inst, cell }))
}

fn edit_of(alloc: Global, line: &str) -> Result<Edit, Fail> {
    let (kind, words) = line.split_once(' ').ok_or("no statement")?;
    match kind {
        "net" => Ok(Edit::Net(text(alloc, Some(words))?)),
        "const" => Ok(Edit::Const(text(alloc, Some(words))?)),
        "inst" => inst(alloc, words),
        "delay" => delay(alloc, words),
        "tick" => tick(alloc, words),
        "root" => Ok(Edit::Root(event(alloc, Some(words))?)),
        "delinst" => Ok(Edit::DelInst(text(alloc, Some(words))?)),
        "delnet" => Ok(Edit::DelNet(text(alloc, Some(words))?)),
        "delfork" => Ok(Edit::DelFork(text(alloc, Some(words))?)),
        "move" => pin_move(alloc, words),
        "swap" => swap(alloc, words),
        _ => fork(alloc, words),
    }
}

/// How many nets, constants, instances, ticks and forks there are.
fn counts(netlist: &Netlist) -> [usize; 5] {
    [
        netlist.net_count(),
        netlist.const_count(),
        netlist.inst_count(),
        netlist.tick_count(),
        netlist.fork_count(),
    ]
}

/// The number of an event of the netlist.
fn event_number(alloc: Global, netlist: &Netlist, word: Option<&str>) -> Result<u32, Fail> {
    let event = event(alloc, word)?;
    let number = netlist.event(event.net.bytes(), event.rising);
    Ok(number.ok_or("no event")?)
}

/// The offset between two events.
fn offset(alloc: Global, netlist: &Netlist, words: &str) -> Result<String, Fail> {
    let mut words = words.split(' ');
    let _kind = words.next();
    let source = event_number(alloc, netlist, words.next())?;
    let target = event_number(alloc, netlist, words.next())?;
    Ok(format!(in alloc; "{}", netlist.offset(source, target))?)
}

/// What stands in the netlist.
fn stands(alloc: Global, netlist: &Netlist) -> Result<String, Fail> {
    Ok(format!(in alloc; "{:?}", counts(netlist))?)
}

/// What stands in a copy of the netlist.
fn stands_in_a_copy(alloc: Global, netlist: &Netlist) -> Result<String, Fail> {
    let copy = netlist.copy()?;
    let stands = stands(alloc, &copy);
    drop(copy);
    stands
}

/// Whether the netlist is whole.
fn whole(alloc: Global, library: &Library, netlist: &Netlist) -> Result<String, Fail>
    requires { Fits library.now netlist.now.insts }
{
    Ok(format!(in alloc; "{:?}", netlist.check_whole(library))?)
}

/// How many rules the netlist has.
fn rules(alloc: Global, library: &Library, netlist: &Netlist) -> Result<String, Fail>
    requires { Fits library.now netlist.now.insts }
{
    Ok(format!(in alloc; "{}", netlist.rule_count(library))?)
}

/// What a question answers.
fn asked(
    alloc: Global,
    library: &Library,
    netlist: &Netlist,
    question: &str,
) -> Result<String, Fail>
    requires { Fits library.now netlist.now.insts }
{
    match question {
        "whole" => whole(alloc, library, netlist),
        "rules" => rules(alloc, library, netlist),
        "stands" => stands(alloc, netlist),
        "copy" => stands_in_a_copy(alloc, netlist),
        _ => offset(alloc, netlist, question),
    }
}

/// What a line's statement or question answers.
fn answer(
    alloc: Global,
    library: &Library,
    netlist: &mut Netlist,
    line: &str,
) -> Result<String, Fail>
    requires { Fits library.now netlist.old.insts }
    ensures { Fits library.now netlist.new.insts }
{
    if let Some(question) = line.strip_prefix("? ") {
        return asked(alloc, library, netlist, question);
    }
    let edit = edit_of(alloc, line)?;
    let answer = netlist.make(library, &edit);
    drop(edit);
    Ok(format!(in alloc; "{answer:?}")?)
}

/// The first line that answers something else than it says.
fn first_mismatch<'a>(
    alloc: Global,
    library: &Library,
    netlist: &mut Netlist,
    rows: &'a str,
) -> Result<Option<&'a str>, Fail>
    requires { Fits library.now netlist.old.insts }
{
    'rows: for row in rows.lines() {
        let (line, wanted) = row.split_once(" => ").ok_or("no arrow")?;
        let answered = answer(alloc, library, netlist, line)?;
        if answered.as_str() != wanted {
            return Ok(Some(row));
        }
    }
    Ok(None)
}

/// The first line that answers something else than it says, from the netlist with nothing in it on.
#[tactic(auto, using(crate::proofs::Nothing::fits_nothing))]
fn first_wrong<'a>(
    alloc: Global,
    library: &Library,
    rows: &'a str,
) -> Result<Option<&'a str>, Fail> {
    let mut netlist = Netlist::empty(alloc)?;
    let wrong = first_mismatch(alloc, library, &mut netlist, rows);
    drop(netlist);
    wrong
}

/// The first line of all rows on small netlists that answers something else than it says.
fn first_wrong_of_all(alloc: Global, library: &Library) -> Result<Option<&'static str>, Fail> {
    let wrong = first_wrong(alloc, library, STATEMENTS)?;
    if wrong.is_some() {
        return Ok(wrong);
    }
    let wrong = first_wrong(alloc, library, DELETIONS)?;
    if wrong.is_some() {
        return Ok(wrong);
    }
    let wrong = first_wrong(alloc, library, NOTHING)?;
    if wrong.is_some() {
        return Ok(wrong);
    }
    let wrong = first_wrong(alloc, library, UNDRIVEN)?;
    if wrong.is_some() {
        return Ok(wrong);
    }
    let wrong = first_wrong(alloc, library, RING)?;
    if wrong.is_some() {
        return Ok(wrong);
    }
    first_wrong(alloc, library, RESET)
}

#[test]
fn answers_each_row(rt: HostRuntime) -> Result<(), Fail> {
    let library = Library::read(rt.alloc(), CELLS.as_bytes())?;
    let wrong = first_wrong_of_all(rt.alloc(), &library);
    drop(library);
    assert_eq!(rt; wrong?, None);
    Ok(())
}

/// Adds the row of a 16-input gate: its inputs on the net before in a ring, its output on the net of its number.
fn push_gate(alloc: Global, rows: &mut String, at: usize) -> Result<(), AllocError> {
    let source = if at == 0 { 2047 } else { at - 1 };
    rows.push_str(format!(in alloc; "inst u{at} N16 Z=m{at}")?.as_str())?;
    for i in 0..16u32 {
        rows.push_str(format!(in alloc; " I{i}=m{source}")?.as_str())?;
    }
    rows.push_str(" => Ok(())\n")
}

/// The rows of 2,048 gates in a ring, and what stands around it.
fn gate_rows(alloc: Global) -> Result<String, AllocError> {
    let mut rows = String::new(alloc);
    for at in 0..2048usize {
        rows.push_str(format!(in alloc; "net m{at} => Ok(())\n")?.as_str())?;
    }
    for at in 0..2048usize {
        push_gate(alloc, &mut rows, at)?;
    }
    rows.push_str(GATES)?;
    Ok(rows)
}

#[test]
fn counts_as_many_rules_as_may_be(rt: HostRuntime) -> Result<(), Fail> {
    let library = Library::read(rt.alloc(), CELLS.as_bytes())?;
    let rows = gate_rows(rt.alloc())?;
    let wrong = first_wrong(rt.alloc(), &library, rows.as_str());
    drop(library);
    assert_eq!(rt; wrong?, None);
    Ok(())
}
