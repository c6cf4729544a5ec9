// What a line says, in words that are lent from it.
ghost use Rattle.std.specs.Prelude.{◌≡◌, IfOk};
ghost use Rattle.netlist_reader.specs.Told.{told};

use cyc_text::Text;
use netlist_model::{
    DelayOf, Edit, EventWord, ForkText, InstOf, MoveOf, PinNet, PinNets, PinWord, SwapOf, TickOf,
};
use std::alloc::{AllocError, Global};

/// A line's edit. Each name is the part of the line where it stands.
#[derive(Drop)]
pub(crate) enum Said<'a> {
    Net(&'a [u8]),
    Const(&'a [u8]),
    Inst(InstSaid<'a>),
    DelInst(&'a [u8]),
    DelNet(&'a [u8]),
    Move(MoveSaid<'a>),
    Swap(SwapSaid<'a>),
    Delay(DelaySaid<'a>),
    Tick(TickSaid<'a>),
    Root(EventWord<'a>),
    Fork(ForkSaid<'a>),
    DelFork(&'a [u8]),
}

/// An instance of a cell, with what its pins go to.
#[derive(Drop)]
pub(crate) struct InstSaid<'a> {
    pub name: &'a [u8],
    pub cell: &'a [u8],
    pub pins: Vec<PinWord<'a>>,
}

/// A pin of an instance, and the net or constant that it goes to.
#[derive(Drop)]
pub(crate) struct MoveSaid<'a> {
    pub inst: &'a [u8],
    pub pin: &'a [u8],
    pub net: &'a [u8],
}

/// An instance, and the cell that it becomes one of.
#[derive(Drop)]
pub(crate) struct SwapSaid<'a> {
    pub inst: &'a [u8],
    pub cell: &'a [u8],
}

/// The delays, in picoseconds, of the arc from a pin of an instance.
#[derive(Drop)]
pub(crate) struct DelaySaid<'a> {
    pub inst: &'a [u8],
    pub pin: &'a [u8],
    pub rise: u64,
    pub fall: u64,
}

/// The offset from one event to another.
#[derive(Drop)]
pub(crate) struct TickSaid<'a> {
    pub source: EventWord<'a>,
    pub target: EventWord<'a>,
    pub count: u64,
}

/// A fork, with its margin in picoseconds.
#[derive(Drop)]
pub(crate) struct ForkSaid<'a> {
    pub name: &'a [u8],
    pub root: EventWord<'a>,
    pub fast: EventWord<'a>,
    pub slow: EventWord<'a>,
    pub margin: u64,
    pub offset: u64,
}

impl<'a> Said<'a> {
    /// The edit, with texts of its own.
    pub(crate) fn own(&self, alloc: Global) -> Result<Edit, AllocError>
        ensures { IfOk result (λ e. e ≡ told self.now) }
    {
        Ok(match self {
            Said::Net(name) => Edit::Net(Text::of(alloc, name)?),
            Said::Const(name) => Edit::Const(Text::of(alloc, name)?),
            Said::Inst(i) => Edit::Inst(i.own(alloc)?),
            Said::DelInst(name) => Edit::DelInst(Text::of(alloc, name)?),
            Said::DelNet(name) => Edit::DelNet(Text::of(alloc, name)?),
            Said::Move(m) => Edit::Move(m.own(alloc)?),
            Said::Swap(s) => Edit::Swap(s.own(alloc)?),
            Said::Delay(d) => Edit::Delay(d.own(alloc)?),
            Said::Tick(t) => Edit::Tick(t.own(alloc)?),
            Said::Root(event) => Edit::Root(event.own(alloc)?),
            Said::Fork(f) => Edit::Fork(f.own(alloc)?),
            Said::DelFork(name) => Edit::DelFork(Text::of(alloc, name)?),
        })
    }
}

impl<'a> InstSaid<'a> {
    fn own(&self, alloc: Global) -> Result<InstOf, AllocError>
        ensures { IfOk result (λ i. i ≡ record { name = self.now.name.now; cell = self.now.cell.now; pins = self.now.pins.items }) }
    {
        Ok(InstOf {
            name: Text::of(alloc, self.name)?,
            cell: Text::of(alloc, self.cell)?,
            pins: PinNets::of(own_pins(alloc, &self.pins)?),
        })
    }
}

/// The same pins, with texts of their own.
fn own_pins(alloc: Global, words: &[PinWord<'_>]) -> Result<Vec<PinNet>, AllocError>
    ensures { IfOk result (λ v. v.items ≡ words.now) }
{
    let mut pins = Vec::with_capacity(alloc, words.len())?;
    for word in words {
        pins.push(word.own(alloc)?)?;
    }
    Ok(pins)
}

impl<'a> MoveSaid<'a> {
    fn own(&self, alloc: Global) -> Result<MoveOf, AllocError>
        ensures { IfOk result (λ m. m ≡ record { inst = self.now.inst.now; pin = self.now.pin.now; net = self.now.net.now }) }
    {
        Ok(MoveOf {
            inst: Text::of(alloc, self.inst)?,
            pin: Text::of(alloc, self.pin)?,
            net: Text::of(alloc, self.net)?,
        })
    }
}

impl<'a> SwapSaid<'a> {
    fn own(&self, alloc: Global) -> Result<SwapOf, AllocError>
        ensures { IfOk result (λ s. s ≡ record { inst = self.now.inst.now; cell = self.now.cell.now }) }
    {
        Ok(SwapOf {
            inst: Text::of(alloc, self.inst)?,
            cell: Text::of(alloc, self.cell)?,
        })
    }
}

impl<'a> DelaySaid<'a> {
    fn own(&self, alloc: Global) -> Result<DelayOf, AllocError>
        ensures { IfOk result (λ d. d ≡ record { inst = self.now.inst.now; pin = self.now.pin.now; rise = self.now.rise; fall = self.now.fall }) }
    {
        Ok(DelayOf {
            inst: Text::of(alloc, self.inst)?,
            pin: Text::of(alloc, self.pin)?,
            rise: self.rise,
            fall: self.fall,
        })
    }
}

impl<'a> TickSaid<'a> {
    fn own(&self, alloc: Global) -> Result<TickOf, AllocError>
        ensures { IfOk result (λ t. t ≡ record { source = self.now.source; target = self.now.target; count = self.now.count }) }
    {
        Ok(TickOf {
            source: self.source.own(alloc)?,
            target: self.target.own(alloc)?,
            count: self.count,
        })
    }
}

impl<'a> ForkSaid<'a> {
    fn own(&self, alloc: Global) -> Result<ForkText, AllocError>
        ensures { IfOk result (λ f. f ≡ record { name = self.now.name.now; root = self.now.root; fast = self.now.fast; slow = self.now.slow; margin = self.now.margin; offset = self.now.offset }) }
    {
        Ok(ForkText {
            name: Text::of(alloc, self.name)?,
            root: self.root.own(alloc)?,
            fast: self.fast.own(alloc)?,
            slow: self.slow.own(alloc)?,
            margin: self.margin,
            offset: self.offset,
        })
    }
}
