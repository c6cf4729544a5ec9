//! A netlist with cells of each sense, and its rules.
ghost use Rattle.netlist_model.specs.Sound.{Fits};

use crate::expand;
use cell_arcs::Library;
use cyc_text::Text;
use netlist_model::{EventName, Netlist, PinNet, PinNets};
use rule_system::{MOST_RULES, Rule};
use std::alloc::Global;
use std::fmt::Write;
use std::test::Fail;
use std::thread::Threads;

const CELLS: &str =
    "[cell.MIX]\ninputs = [\"A\", \"B\", \"C\"]\noutput = \"Z\"\narcs = [{ from = \"A\", sense = \"pos\", rise = 20, fall = 18 }, { from = \"B\", sense = \"neg\", rise = 12, fall = 10 }, { from = \"C\", sense = \"non\", rise = 7, fall = 5 }]\n";

/// The rules of the two cells: source, target, delay and offset.
const MIXED: &str = "\
0 2 100 0
1 3 200 0
0 2 7 0
1 2 7 15
0 3 5 0
1 3 5 0
2 4 20 0
3 5 18 0
1 4 12 0
0 5 10 0
";

fn cells(alloc: Global) -> Result<Library, Fail> {
    Ok(Library::read(alloc, CELLS.as_bytes())?)
}

fn pins(alloc: Global, words: &str) -> Result<PinNets, Fail> {
    let mut pins = Vec::new(alloc);
    for word in words.split(' ') {
        let (pin, net) = word.split_once('=').ok_or("no pin word")?;
        pins.push(PinNet {
            pin: Text::of(alloc, pin.as_bytes())?,
            net: Text::of(alloc, net.as_bytes())?,
        })?;
    }
    Ok(PinNets::of(pins))
}

fn event(alloc: Global, net: &str, rising: bool) -> Result<EventName, Fail> {
    Ok(EventName {
        net: Text::of(alloc, net.as_bytes())?,
        rising,
    })
}

/// Adds a net, and an instance of a cell that drives it.
fn add_stage(
    alloc: Global,
    library: &Library,
    net: &mut Netlist,
    cell: &[u8],
    words: &str,
) -> Result<(), Fail>
    requires { Fits library.now net.old.insts }
    ensures { Fits library.now net.new.insts }
{
    let (_, name) = words.rsplit_once('=').ok_or("no output")?;
    net.add_net(name.as_bytes())?;
    let pins = pins(alloc, words)?;
    net.add_inst(library, name.as_bytes(), cell, pins.list())?;
    Ok(())
}

/// Two cells with an arc of each sense. They have pins on a constant, and one has delays of its own.
fn add_cells(alloc: Global, library: &Library, net: &mut Netlist) -> Result<(), Fail>
    requires { Fits library.now net.old.insts }
    ensures { Fits library.now net.new.insts }
{
    net.add_net(b"B")?;
    net.add_const(b"rst")?;
    add_stage(alloc, library, net, b"MIX", "A=B B=rst C=B Z=A")?;
    add_stage(alloc, library, net, b"MIX", "A=A B=B C=rst Z=Z")?;
    net.set_delay(library, b"A", b"A", 100, 200)?;
    Ok(())
}

/// Gives two pairs of events ticks, each other than that of the opposite pair.
fn add_ticks(alloc: Global, library: &Library, net: &mut Netlist) -> Result<(), Fail>
    requires { Fits library.now net.old.insts }
    ensures { Fits library.now net.new.insts }
{
    let rise = event(alloc, "A", true)?;
    let fall = event(alloc, "B", false)?;
    net.set_tick(&fall, &rise, 15)?;
    net.set_tick(&rise, &fall, 2)?;
    Ok(())
}

fn text(alloc: Global, rules: &[Rule]) -> Result<String, Fail> {
    let mut text = String::new(alloc);
    for rule in rules {
        let Rule {
            source,
            target,
            delay,
            offset,
        } = *rule;
        writeln!(text, "{source} {target} {delay} {offset}")?;
    }
    Ok(text)
}

/// The rules of a netlist, each on a line.
fn expanded<R: Threads + Sync>(
    rt: &R,
    alloc: Global,
    library: &Library,
    net: &Netlist,
) -> Result<String, Fail>
    requires { Fits library.now net.now.insts }
{
    if net.rule_count(library) > MOST_RULES as u64 {
        return Err("too many rules")?;
    }
    let system = expand(rt, alloc, library, net)?;
    text(alloc, system.rules())
}

/// Fills a netlist with the cells and their ticks.
fn fill(alloc: Global, library: &Library, net: &mut Netlist) -> Result<(), Fail>
    requires { Fits library.now net.old.insts }
    ensures { Fits library.now net.new.insts }
{
    add_cells(alloc, library, net)?;
    add_ticks(alloc, library, net)
}

/// The rules of a netlist once it is filled, each on a line.
fn filled<R: Threads + Sync>(
    rt: &R,
    alloc: Global,
    library: &Library,
    net: &mut Netlist,
) -> Result<String, Fail>
    requires { Fits library.now net.old.insts }
{
    fill(alloc, library, net)?;
    expanded(rt, alloc, library, net)
}

/// The rules of the two cells, each on a line. The netlist is let go by `drop`, since the destructor is then proved apart.
#[tactic(auto, using(crate::proofs::Nothing::fits_nothing))]
fn mixed_rules<R: Threads + Sync>(
    rt: &R,
    alloc: Global,
    library: &Library,
) -> Result<String, Fail> {
    let mut net = Netlist::empty(alloc)?;
    let rules = filled(rt, alloc, library, &mut net);
    drop(net);
    rules
}

#[test]
fn expands_each_sense(rt: HostRuntime) -> Result<(), Fail> {
    let library = cells(rt.alloc())?;
    let rules = mixed_rules(&rt, rt.alloc(), &library)?;
    assert_eq!(rt; rules.as_str(), MIXED);
    Ok(())
}
