//! The canonical text of a netlist.
ghost use Rattle.std.specs.Prelude.{◌≡◌, ◌+◌, ◌++◌, ◌∷◌, ◌<◌, ◌*◌, [], All, IfOk, OnOk, Ok, Some, length, map, slice_get};
ghost use Rattle.std.specs.List.{flat_map};
ghost use Rattle.cyc_text.specs.Written.{ended, line_text, lines_text};
ghost use Rattle.cell_arcs.specs.IsLibrary.{IsCell};
ghost use Rattle.netlist_model.specs.EventNames.{event_name};
ghost use Rattle.netlist_model.specs.Sound.{Fits, FitsCell, IsFork, IsInstance, IsOfLibrary, IsPin, IsTick};
ghost use Rattle.netlist_reader.specs.Canonical as spec;
ghost use Rattle.netlist_reader.specs.NetlistFiles.{netlist_of};

use crate::laws::written_netlists_are_read_back;
use cell_arcs::{Cell, CellArc, Library};
use cyc_text::{Text, push_number, push_word};
use netlist_model::{Delay, Fork, Instance, NetRef, Netlist, Tick};
use std::alloc::{AllocError, Global};

/// The canonical text of a netlist over the library that it fits: the lines of its nets, constants, instances,
/// own delays, ticks, root and forks, with one space between two words and a line feed behind each line.
///
/// What is written is read back as the same netlist. `AllocError` only for want of memory. Linear in the text.
pub fn write(alloc: Global, library: &Library, net: &Netlist) -> Result<Text, AllocError>
    requires { Fits library.now net.now.insts }
    ensures text { IfOk result (λ t. t ≡ spec.canonical_text library.now net.now) }
    ensures read_back { IfOk result (λ t. netlist_of library.now t ≡ Ok net.now) }
{
    library.sound();
    net.sound();
    written_netlists_are_read_back();
    let written = text_of(alloc, library, net)?;
    let text = Text::of(alloc, &written)?;
    Ok(text)
}

/// The bytes of the canonical text.
fn text_of(alloc: Global, library: &Library, net: &Netlist) -> Result<Vec<u8>, AllocError>
    requires { Fits library.now net.now.insts }
    ensures { IfOk result (λ v. v.items ≡ spec.canonical_text library.now net.now) }
{
    let mut text = Vec::new(alloc);
    push_nets(&mut text, net)?;
    push_consts(&mut text, net)?;
    push_insts(&mut text, library, net)?;
    push_delays(&mut text, library, net)?;
    push_ticks(&mut text, net)?;
    push_root(&mut text, net)?;
    push_forks(&mut text, net)?;
    Ok(text)
}

/// Adds a space and an event's name.
#[tactic(auto, unfolding(netlist_model::specs::EventNames::event_name), using(crate::proofs::Texts::name_is))]
fn push_event(text: &mut Vec<u8>, net: &Netlist, event: u32) -> Result<(), AllocError>
    requires { event < 2 * length net.now.nets }
    ensures { OnOk result (text.new.items ≡ text.old.items ++ 32 ∷ event_name net.now.nets event) }
{
    push_word(text, net.net_name((event / 2) as usize))?;
    text.push(if event % 2 == 0 { b'+' } else { b'-' })?;
    Ok(())
}

/// The name of what a pin is on.
#[tactic(auto, using(crate::proofs::Texts::name_is))]
fn ref_name(net: &Netlist, pin: NetRef) -> &[u8]
    requires { IsPin (length net.now.nets) (length net.now.consts) pin }
    ensures { result.now ≡ spec.ref_name net.now.nets net.now.consts pin }
{
    match pin {
        NetRef::Net(at) => net.net_name(at as usize),
        NetRef::Const(at) => net.const_name(at as usize),
    }
}

/// Adds the line of a net.
#[tactic(auto, unfolding(crate::specs::Canonical::net_line))]
fn push_net(text: &mut Vec<u8>, name: &[u8]) -> Result<(), AllocError>
    ensures { OnOk result (text.new.items ≡ text.old.items ++ line_text (spec.net_line name.now)) }
{
    text.extend_from_slice(b"net")?;
    push_word(text, name)?;
    text.extend_from_slice(b"\n")
}

/// Adds the line of a constant.
#[tactic(auto, unfolding(crate::specs::Canonical::const_line))]
fn push_const(text: &mut Vec<u8>, name: &[u8]) -> Result<(), AllocError>
    ensures { OnOk result (text.new.items ≡ text.old.items ++ line_text (spec.const_line name.now)) }
{
    text.extend_from_slice(b"const")?;
    push_word(text, name)?;
    text.extend_from_slice(b"\n")
}

/// The name of the pin at a place: the inputs in order, then the output.
#[tactic(auto, using(crate::proofs::Texts::input_is, crate::proofs::Texts::output_is))]
fn pin_at(cell: &Cell, at: usize) -> &[u8]
    requires { at < length cell.now.inputs + 1 }
    ensures { slice_get (cell.now.inputs ++ cell.now.output ∷ []) at ≡ Some result.now }
{
    let inputs = cell.inputs.list();
    if at < inputs.len() {
        inputs[at].bytes()
    } else {
        cell.output.bytes()
    }
}

/// Adds a space and what a pin is on.
fn push_pin(text: &mut Vec<u8>, net: &Netlist, pin: &[u8], on: NetRef) -> Result<(), AllocError>
    requires { IsPin (length net.now.nets) (length net.now.consts) on }
    ensures { OnOk result (text.new.items ≡ text.old.items ++ 32 ∷ spec.pin_name net.now.nets net.now.consts pin.now on) }
{
    push_word(text, pin)?;
    text.extend_from_slice(b"=")?;
    text.extend_from_slice(ref_name(net, on))
}

/// Adds the pins of an instance, and ends the line.
fn push_pins(
    text: &mut Vec<u8>,
    net: &Netlist,
    cell: &Cell,
    pins: &[NetRef],
) -> Result<(), AllocError>
    requires each { All (IsPin (length net.now.nets) (length net.now.consts)) pins.now }
    requires fits { length pins.now ≡ length cell.now.inputs + 1 }
    ensures { OnOk result (text.new.items ≡ text.old.items ++ ended (spec.pin_names net.now.nets net.now.consts (cell.now.inputs ++ cell.now.output ∷ []) pins.now)) }
{
    for at in 0..pins.len() {
        let pin = pin_at(cell, at);
        let on = pins[at];
        push_pin(text, net, pin, on)?;
    }
    text.extend_from_slice(b"\n")
}

/// Adds the line of an instance of a cell.
#[tactic(auto, unfolding(crate::specs::Canonical::inst_line_of))]
fn push_inst(
    text: &mut Vec<u8>,
    net: &Netlist,
    cell: &Cell,
    inst: &Instance,
) -> Result<(), AllocError>
    requires each { All (IsPin (length net.now.nets) (length net.now.consts)) inst.now.pins }
    requires fits { FitsCell cell.now inst.now }
    ensures { OnOk result (text.new.items ≡ text.old.items ++ line_text (spec.inst_line_of net.now inst.now cell.now)) }
{
    text.extend_from_slice(b"inst")?;
    push_word(text, inst.name.bytes())?;
    push_word(text, cell.name.bytes())?;
    push_pins(text, net, cell, inst.pins.list())
}

/// Adds the line of an arc's own delays.
#[tactic(auto, unfolding(crate::specs::Canonical::delay_line))]
fn push_delay(text: &mut Vec<u8>, inst: &[u8], pin: &[u8], own: Delay) -> Result<(), AllocError>
    ensures { OnOk result (text.new.items ≡ text.old.items ++ line_text (spec.delay_line inst.now pin.now own)) }
{
    text.extend_from_slice(b"delay")?;
    push_word(text, inst)?;
    push_word(text, pin)?;
    push_number(text, u64::from(own.rise))?;
    push_number(text, u64::from(own.fall))?;
    text.extend_from_slice(b"\n")
}

/// Adds the line of a tick.
#[tactic(auto, unfolding(crate::specs::Canonical::tick_line))]
fn push_tick(text: &mut Vec<u8>, net: &Netlist, tick: Tick) -> Result<(), AllocError>
    requires { IsTick (length net.now.nets) tick }
    ensures { OnOk result (text.new.items ≡ text.old.items ++ line_text (spec.tick_line net.now.nets tick)) }
{
    text.extend_from_slice(b"tick")?;
    push_event(text, net, tick.source)?;
    push_event(text, net, tick.target)?;
    push_number(text, u64::from(tick.count))?;
    text.extend_from_slice(b"\n")
}

/// Adds a space and an event's name for each event of a fork.
fn push_events(text: &mut Vec<u8>, net: &Netlist, fork: &Fork) -> Result<(), AllocError>
    requires { IsFork (length net.now.nets) fork.now }
    ensures { OnOk result (text.new.items ≡ text.old.items ++ 32 ∷ event_name net.now.nets fork.now.root ++ 32 ∷ event_name net.now.nets fork.now.fast ++ 32 ∷ event_name net.now.nets fork.now.slow) }
{
    push_event(text, net, fork.root)?;
    push_event(text, net, fork.fast)?;
    push_event(text, net, fork.slow)
}

/// Adds the line of a fork.
#[tactic(auto, unfolding(crate::specs::Canonical::fork_line))]
fn push_fork(text: &mut Vec<u8>, net: &Netlist, fork: &Fork) -> Result<(), AllocError>
    requires { IsFork (length net.now.nets) fork.now }
    ensures { OnOk result (text.new.items ≡ text.old.items ++ line_text (spec.fork_line net.now.nets fork.now)) }
{
    text.extend_from_slice(b"fork")?;
    push_word(text, fork.name.bytes())?;
    push_events(text, net, fork)?;
    push_number(text, u64::from(fork.margin))?;
    push_number(text, u64::from(fork.offset))?;
    text.extend_from_slice(b"\n")
}

/// Adds the lines of the nets.
fn push_nets(text: &mut Vec<u8>, net: &Netlist) -> Result<(), AllocError>
    ensures { OnOk result (text.new.items ≡ text.old.items ++ lines_text (map spec.net_line net.now.nets)) }
{
    for at in 0..net.net_count() {
        let name = net.net_name(at);
        push_net(text, name)?;
    }
    Ok(())
}

/// Adds the lines of the constants.
fn push_consts(text: &mut Vec<u8>, net: &Netlist) -> Result<(), AllocError>
    ensures { OnOk result (text.new.items ≡ text.old.items ++ lines_text (map spec.const_line net.now.consts)) }
{
    for at in 0..net.const_count() {
        let name = net.const_name(at);
        push_const(text, name)?;
    }
    Ok(())
}

/// The cell of an instance.
fn cell_of<'a>(library: &'a Library, inst: &Instance) -> &'a Cell
    requires { IsOfLibrary library.now inst.now }
    ensures cell { slice_get library.now inst.now.cell ≡ Some result.now }
    ensures sound { IsCell result.now }
    ensures fits { FitsCell result.now inst.now }
{
    library.cell(inst.cell)
}

/// Adds the lines of the instances.
fn push_insts(text: &mut Vec<u8>, library: &Library, net: &Netlist) -> Result<(), AllocError>
    requires { Fits library.now net.now.insts }
    ensures { OnOk result (text.new.items ≡ text.old.items ++ lines_text (map (spec.inst_line library.now net.now) net.now.insts)) }
{
    net.sound();
    for at in 0..net.inst_count() {
        let inst = net.inst(at);
        let cell = cell_of(library, inst);
        push_inst(text, net, cell, inst)?;
    }
    Ok(())
}

/// Adds the line of an arc where the instance has delays of its own for it.
#[tactic(auto, using(cyc_text::proofs::WrittenLemmas::nothing_written))]
fn push_own(
    text: &mut Vec<u8>,
    inst: &[u8],
    cell: &Cell,
    arc: CellArc,
    own: Option<Delay>,
) -> Result<(), AllocError>
    requires { arc.from < length cell.now.inputs }
    ensures { OnOk result (text.new.items ≡ text.old.items ++ lines_text (spec.arc_lines inst.now cell.now.inputs arc own)) }
{
    let Some(delay) = own else {
        return Ok(());
    };
    let pin = pin_at(cell, arc.from);
    push_delay(text, inst, pin, delay)?;
    Ok(())
}

/// Adds the lines of an instance's own delays.
fn push_owns(text: &mut Vec<u8>, cell: &Cell, inst: &Instance) -> Result<(), AllocError>
    requires sound { IsCell cell.now }
    requires fits { FitsCell cell.now inst.now }
    ensures { OnOk result (text.new.items ≡ text.old.items ++ lines_text (spec.delay_lines_of inst.now.name cell.now.inputs cell.now.arcs inst.now.delays)) }
{
    let arcs = cell.arcs.list();
    let delays = inst.delays.list();
    for at in 0..arcs.len() {
        let arc = arcs[at];
        let own = delays[at];
        push_own(text, inst.name.bytes(), cell, arc, own)?;
    }
    Ok(())
}

/// Adds the lines of all own delays.
fn push_delays(text: &mut Vec<u8>, library: &Library, net: &Netlist) -> Result<(), AllocError>
    requires { Fits library.now net.now.insts }
    ensures { OnOk result (text.new.items ≡ text.old.items ++ lines_text (flat_map (spec.delay_lines library.now) net.now.insts)) }
{
    for at in 0..net.inst_count() {
        let inst = net.inst(at);
        let cell = cell_of(library, inst);
        push_owns(text, cell, inst)?;
    }
    Ok(())
}

/// Adds the lines of ticks.
fn push_block(text: &mut Vec<u8>, net: &Netlist, ticks: &[Tick]) -> Result<(), AllocError>
    requires { All (IsTick (length net.now.nets)) ticks.now }
    ensures { OnOk result (text.new.items ≡ text.old.items ++ lines_text (map (spec.tick_line net.now.nets) ticks.now)) }
{
    for tick in ticks {
        push_tick(text, net, *tick)?;
    }
    Ok(())
}

/// Adds the lines of the ticks of a netlist.
fn push_ticks(text: &mut Vec<u8>, net: &Netlist) -> Result<(), AllocError>
    ensures { OnOk result (text.new.items ≡ text.old.items ++ lines_text (map (spec.tick_line net.now.nets) net.now.ticks)) }
{
    net.sound();
    let blocks = net.tick_blocks();
    for block in blocks {
        push_block(text, net, block)?;
    }
    Ok(())
}

/// Adds the line of the root.
#[tactic(auto, unfolding(crate::specs::Canonical::root_lines, cyc_text::specs::Written::lines_text))]
fn push_root(text: &mut Vec<u8>, net: &Netlist) -> Result<(), AllocError>
    ensures { OnOk result (text.new.items ≡ text.old.items ++ lines_text (spec.root_lines net.now.nets net.now.root)) }
{
    net.sound();
    let Some(root) = net.root() else {
        return Ok(());
    };
    text.extend_from_slice(b"root")?;
    push_event(text, net, root)?;
    text.extend_from_slice(b"\n")
}

/// Adds the lines of the forks.
fn push_forks(text: &mut Vec<u8>, net: &Netlist) -> Result<(), AllocError>
    ensures { OnOk result (text.new.items ≡ text.old.items ++ lines_text (map (spec.fork_line net.now.nets) net.now.forks)) }
{
    net.sound();
    for at in 0..net.fork_count() {
        let fork = net.fork(at);
        push_fork(text, net, fork)?;
    }
    Ok(())
}
