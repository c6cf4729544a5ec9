// The parts of a netlist, and those of its statements.
ghost use Rattle.std.specs.Prelude.{◌≡◌, ◌<◌, length, map, slice_set, IfOk, Some};
ghost use Rattle.netlist_model.specs.Deletions as deletions;

use cyc_text::Text;
use std::alloc::{AllocError, Global};
use std::marker::Model;

/// An event by words: a net's name, and whether the net rises or falls.
#[derive(Drop)]
pub struct EventName {
    pub net: Text,
    pub rising: bool,
}

/// A pin and the net or constant that it goes to, by names.
#[derive(Drop)]
pub struct PinNet {
    pub pin: Text,
    pub net: Text,
}

/// Pins with their nets, in order.
#[derive(Drop)]
pub struct PinNets {
    items: Vec<PinNet>,
}

impl Model for PinNets {
    ghost use Rattle.std.specs.Prelude.{List};
    ghost use Rattle.netlist_model.specs.declared.parts.PinNet.{PinNet};

    ghost Value = { List PinNet };

    ghost view = { λ p. p.items.items };
}

impl PinNets {
    /// The list of these items.
    pub fn of(items: Vec<PinNet>) -> PinNets
        ensures { result ≡ items.items }
    {
        PinNets { items }
    }

    /// The items.
    pub fn list(&self) -> &[PinNet]
        ensures { result.now ≡ self.now }
    {
        self.items.as_slice()
    }

    pub(crate) fn copy(&self) -> Result<PinNets, AllocError>
        ensures { IfOk result (λ p. p ≡ self.now) }
    {
        let items = copies(*self.items.allocator(), &self.items)?;
        Ok(PinNets { items })
    }
}

/// Other pins of the same words.
fn copies(alloc: Global, pins: &[PinNet]) -> Result<Vec<PinNet>, AllocError>
    ensures { IfOk result (λ v. v.items ≡ pins.now) }
{
    let mut copies = Vec::with_capacity(alloc, pins.len())?;
    for pin in pins {
        copies.push(pin.copy()?)?;
    }
    Ok(copies)
}

/// What a pin is on: a net with events or a constant, each by its place in its list.
#[derive(Clone, Copy, Debug, PartialEq, Eq, Drop)]
pub enum NetRef {
    Net(u32),
    Const(u32),
}

/// What the pins of an instance are on: the inputs in order, then the output.
#[derive(Drop)]
pub struct NetRefs {
    items: Vec<NetRef>,
}

impl Model for NetRefs {
    ghost use Rattle.std.specs.Prelude.{List};
    ghost use Rattle.netlist_model.specs.declared.parts.NetRef.{NetRef};

    ghost Value = { List NetRef };

    ghost view = { λ p. p.items.items };
}

impl NetRefs {
    /// The list of these items.
    pub fn of(items: Vec<NetRef>) -> NetRefs
        ensures { result ≡ items.items }
    {
        NetRefs { items }
    }

    /// The items.
    pub fn list(&self) -> &[NetRef]
        ensures { result.now ≡ self.now }
    {
        self.items.as_slice()
    }

    pub(crate) fn set(&mut self, at: usize, to: NetRef)
        requires { at < length self.old }
        ensures { self.new ≡ slice_set self.old at to }
    {
        self.items[at] = to;
    }

    /// Moves up what the pins are on, once this net or constant is away.
    pub(crate) fn leave(&mut self, gone: NetRef)
        ensures { self.new ≡ map (deletions.ref_after gone) self.old }
    {
        leave_all(&mut self.items, gone);
    }

    pub(crate) fn copy(&self) -> Result<NetRefs, AllocError>
        ensures { IfOk result (λ p. p ≡ self.now) }
    {
        let items = Vec::from_slice(*self.items.allocator(), &self.items)?;
        Ok(NetRefs { items })
    }
}

/// The place of an entry, once the one at `gone` is away.
pub(crate) fn moved_up(gone: u32, at: u32) -> u32
    ensures { result ≡ deletions.moved_up gone at }
{
    if gone < at { at - 1 } else { at }
}

/// An event, once a net is away.
pub(crate) fn event_after(gone: u32, event: u32) -> u32
    ensures { result ≡ deletions.event_after gone event }
{
    2 * moved_up(gone, event / 2) + event % 2
}

/// What a pin is on, once this net or constant is away.
fn ref_after(gone: NetRef, to: NetRef) -> NetRef
    ensures { result ≡ deletions.ref_after gone to }
{
    match (gone, to) {
        (NetRef::Net(gone), NetRef::Net(net)) => NetRef::Net(moved_up(gone, net)),
        (NetRef::Const(gone), NetRef::Const(at)) => NetRef::Const(moved_up(gone, at)),
        (NetRef::Net(_), NetRef::Const(at)) => NetRef::Const(at),
        (NetRef::Const(_), NetRef::Net(net)) => NetRef::Net(net),
    }
}

fn leave_all(pins: &mut [NetRef], gone: NetRef)
    ensures { pins.new ≡ map (deletions.ref_after gone) pins.old }
{
    for pin in pins.iter_mut() {
        *pin = ref_after(gone, *pin);
    }
}

/// The delays of an arc in picoseconds, each 0 to 1,000,000: of the rules to a rising and to a falling output.
#[derive(Clone, Copy, Debug, PartialEq, Eq, Drop)]
pub struct Delay {
    pub rise: u32,
    pub fall: u32,
}

/// The delays that an instance has of its own, one place for each arc of its cell.
#[derive(Drop)]
pub struct Delays {
    items: Vec<Option<Delay>>,
}

impl Model for Delays {
    ghost use Rattle.std.specs.Prelude.{List, Option};
    ghost use Rattle.netlist_model.specs.declared.parts.Delay.{Delay};

    ghost Value = { List (Option Delay) };

    ghost view = { λ p. p.items.items };
}

impl Delays {
    /// The list of these items.
    pub fn of(items: Vec<Option<Delay>>) -> Delays
        ensures { result ≡ items.items }
    {
        Delays { items }
    }

    /// The items.
    pub fn list(&self) -> &[Option<Delay>]
        ensures { result.now ≡ self.now }
    {
        self.items.as_slice()
    }

    pub(crate) fn set(&mut self, at: usize, delay: Delay)
        requires { at < length self.old }
        ensures { self.new ≡ slice_set self.old at (Some delay) }
    {
        self.items[at] = Some(delay);
    }

    pub(crate) fn copy(&self) -> Result<Delays, AllocError>
        ensures { IfOk result (λ d. d ≡ self.now) }
    {
        let items = Vec::from_slice(*self.items.allocator(), &self.items)?;
        Ok(Delays { items })
    }
}

/// An instance of a cell, which is named by its place in the library.
#[derive(Drop)]
pub struct Instance {
    pub name: Text,
    pub cell: usize,
    pub pins: NetRefs,
    pub delays: Delays,
}

impl Instance {
    pub(crate) fn copy(&self) -> Result<Instance, AllocError>
        ensures { IfOk result (λ i. i ≡ self.now) }
    {
        Ok(Instance {
            name: self.name.copy()?,
            cell: self.cell,
            pins: self.pins.copy()?,
            delays: self.delays.copy()?,
        })
    }
}

/// The offset (1 to 15) of the rules from one event to another.
#[derive(Clone, Copy, Debug, PartialEq, Eq, Drop)]
pub struct Tick {
    pub source: u32,
    pub target: u32,
    pub count: u32,
}

/// A fork: from its root the slow event must come later than the fast one, by the margin
/// (0 to 1,000,000 picoseconds), where the slow one is counted `offset` (0 to 15) periods on.
#[derive(Drop)]
pub struct Fork {
    pub name: Text,
    pub root: u32,
    pub fast: u32,
    pub slow: u32,
    pub margin: u32,
    pub offset: u32,
}

impl Fork {
    pub(crate) fn copy(&self) -> Result<Fork, AllocError>
        ensures { IfOk result (λ f. f ≡ self.now) }
    {
        Ok(Fork {
            name: self.name.copy()?,
            root: self.root,
            fast: self.fast,
            slow: self.slow,
            margin: self.margin,
            offset: self.offset,
        })
    }
}
