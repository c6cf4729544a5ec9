// Edits: statements that change a netlist, as values.
ghost use Rattle.std.specs.Prelude.{◌≡◌, ◌≢◌, Ok, Err, IfOk, IfErr, OnErr, OnOk};
ghost use Rattle.netlist_model.specs.Edits.{made};
ghost use Rattle.netlist_model.specs.Sound.{Fits};

use crate::faults::StatementFault;
use crate::netlist::Netlist;
use crate::parts::{EventName, PinNet, PinNets};
use cell_arcs::Library;
use cyc_text::Text;
use std::alloc::AllocError;
use std::marker::Model;

/// A statement that changes a netlist.
#[derive(Drop)]
pub enum Edit {
    Net(Text),
    Const(Text),
    Inst(InstOf),
    DelInst(Text),
    DelNet(Text),
    Move(MoveOf),
    Swap(SwapOf),
    Delay(DelayOf),
    Tick(TickOf),
    Root(EventName),
    Fork(ForkText),
    DelFork(Text),
}

/// An instance of a cell, with what its pins go to.
#[derive(Drop)]
pub struct InstOf {
    pub name: Text,
    pub cell: Text,
    pub pins: PinNets,
}

/// A pin of an instance, and the net or constant that it goes to.
#[derive(Drop)]
pub struct MoveOf {
    pub inst: Text,
    pub pin: Text,
    pub net: Text,
}

/// An instance, and the cell that it becomes one of.
#[derive(Drop)]
pub struct SwapOf {
    pub inst: Text,
    pub cell: Text,
}

/// The delays, in picoseconds, of the arc from a pin of an instance.
#[derive(Drop)]
pub struct DelayOf {
    pub inst: Text,
    pub pin: Text,
    pub rise: u64,
    pub fall: u64,
}

/// The offset from one event to another; 0 takes their tick away.
#[derive(Drop)]
pub struct TickOf {
    pub source: EventName,
    pub target: EventName,
    pub count: u64,
}

/// A fork, with its margin in picoseconds.
#[derive(Drop)]
pub struct ForkText {
    pub name: Text,
    pub root: EventName,
    pub fast: EventName,
    pub slow: EventName,
    pub margin: u64,
    pub offset: u64,
}

/// Edits, in order.
#[derive(Drop)]
pub struct Edits {
    items: Vec<Edit>,
}

impl Model for Edits {
    ghost use Rattle.std.specs.Prelude.{List};
    ghost use Rattle.netlist_model.specs.declared.edits.Edit.{Edit};

    ghost Value = { List Edit };

    ghost view = { λ e. e.items.items };
}

impl Edits {
    /// The list of these items.
    pub fn of(items: Vec<Edit>) -> Edits
        ensures { result ≡ items.items }
    {
        Edits { items }
    }

    /// The items.
    pub fn list(&self) -> &[Edit]
        ensures { result.now ≡ self.now }
    {
        self.items.as_slice()
    }
}

impl Edit {
    /// Another edit of the same words. `AllocError` only for want of memory.
    pub fn copy(&self) -> Result<Edit, AllocError>
        ensures { IfOk result (λ e. e ≡ self.now) }
    {
        Ok(match self {
            Edit::Net(name) => Edit::Net(name.copy()?),
            Edit::Const(name) => Edit::Const(name.copy()?),
            Edit::Inst(i) => Edit::Inst(i.copy()?),
            Edit::DelInst(name) => Edit::DelInst(name.copy()?),
            Edit::DelNet(name) => Edit::DelNet(name.copy()?),
            Edit::Move(m) => Edit::Move(m.copy()?),
            Edit::Swap(s) => Edit::Swap(s.copy()?),
            Edit::Delay(d) => Edit::Delay(d.copy()?),
            Edit::Tick(t) => Edit::Tick(t.copy()?),
            Edit::Root(event) => Edit::Root(event.copy()?),
            Edit::Fork(f) => Edit::Fork(f.copy()?),
            Edit::DelFork(name) => Edit::DelFork(name.copy()?),
        })
    }
}

impl InstOf {
    fn copy(&self) -> Result<InstOf, AllocError>
        ensures { IfOk result (λ i. i ≡ self.now) }
    {
        Ok(InstOf {
            name: self.name.copy()?,
            cell: self.cell.copy()?,
            pins: self.pins.copy()?,
        })
    }
}

impl MoveOf {
    fn copy(&self) -> Result<MoveOf, AllocError>
        ensures { IfOk result (λ m. m ≡ self.now) }
    {
        Ok(MoveOf {
            inst: self.inst.copy()?,
            pin: self.pin.copy()?,
            net: self.net.copy()?,
        })
    }
}

impl SwapOf {
    fn copy(&self) -> Result<SwapOf, AllocError>
        ensures { IfOk result (λ s. s ≡ self.now) }
    {
        Ok(SwapOf {
            inst: self.inst.copy()?,
            cell: self.cell.copy()?,
        })
    }
}

impl DelayOf {
    fn copy(&self) -> Result<DelayOf, AllocError>
        ensures { IfOk result (λ d. d ≡ self.now) }
    {
        Ok(DelayOf {
            inst: self.inst.copy()?,
            pin: self.pin.copy()?,
            rise: self.rise,
            fall: self.fall,
        })
    }
}

impl TickOf {
    fn copy(&self) -> Result<TickOf, AllocError>
        ensures { IfOk result (λ t. t ≡ self.now) }
    {
        Ok(TickOf {
            source: self.source.copy()?,
            target: self.target.copy()?,
            count: self.count,
        })
    }
}

impl ForkText {
    fn copy(&self) -> Result<ForkText, AllocError>
        ensures { IfOk result (λ f. f ≡ self.now) }
    {
        Ok(ForkText {
            name: self.name.copy()?,
            root: self.root.copy()?,
            fast: self.fast.copy()?,
            slow: self.slow.copy()?,
            margin: self.margin,
            offset: self.offset,
        })
    }
}

impl EventName {
    fn copy(&self) -> Result<EventName, AllocError>
        ensures { IfOk result (λ e. e ≡ self.now) }
    {
        Ok(EventName {
            net: self.net.copy()?,
            rising: self.rising,
        })
    }
}

impl PinNet {
    pub(crate) fn copy(&self) -> Result<PinNet, AllocError>
        ensures { IfOk result (λ p. p ≡ self.now) }
    {
        Ok(PinNet {
            pin: self.pin.copy()?,
            net: self.net.copy()?,
        })
    }
}

impl Netlist {
    /// Does the edit's statement. A root replaces the one that stands.
    pub fn make(&mut self, library: &Library, edit: &Edit) -> Result<(), StatementFault>
        requires { Fits library.now self.old.insts }
        ensures ok { OnOk result (made library.now self.old edit.now ≡ Ok self.new) }
        ensures refused { IfErr result (λ e. e ≢ StatementFault.Memory → made library.now self.old edit.now ≡ Err e) }
        ensures unchanged { OnErr result (self.new ≡ self.old) }
        ensures fits { Fits library.now self.new.insts }
    {
        match edit {
            Edit::Net(name) => self.add_net(name.bytes()),
            Edit::Const(name) => self.add_const(name.bytes()),
            Edit::Inst(i) => self.add_inst(library, i.name.bytes(), i.cell.bytes(), i.pins.list()),
            Edit::DelInst(name) => self.del_inst(name.bytes()),
            Edit::DelNet(name) => self.del_net(name.bytes()),
            Edit::Move(m) => self.move_pin(library, m.inst.bytes(), m.pin.bytes(), m.net.bytes()),
            Edit::Swap(s) => self.swap_cell(library, s.inst.bytes(), s.cell.bytes()),
            Edit::Delay(d) => self.set_delay(
                library,
                d.inst.bytes(),
                d.pin.bytes(),
                d.rise,
                d.fall,
            ),
            Edit::Tick(t) => self.set_tick(&t.source, &t.target, t.count),
            Edit::Root(event) => self.set_root(event, true),
            Edit::Fork(f) => {
                self.add_fork(
                    f.name.bytes(),
                    &f.root,
                    &f.fast,
                    &f.slow,
                    f.margin,
                    f.offset,
                )
            }
            Edit::DelFork(name) => self.del_fork(name.bytes()),
        }
    }
}
