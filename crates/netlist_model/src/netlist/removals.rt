//! Copies of netlists, and the statements that take something away, move a pin or swap a cell.
ghost use Rattle.std.specs.Prelude.{◌≡◌, ◌≢◌, ◌<◌, ℕ, false, length, None, Ok, Err, IfOk, IfErr, List, OnErr, OnOk, option_map, Some};
ghost use Rattle.std.specs.Cmp.Lexicographic.{pointwise};
ghost use Rattle.std.specs.Option.{option_map_or};
ghost use Rattle.std.specs.Str.{bytes_eq};
ghost use Rattle.cell_arcs.specs.declared.cells.Cell.{Cell};
ghost use Rattle.netlist_model.specs.Circuit.{driver_of, last_of};
ghost use Rattle.netlist_model.specs.Deletions as deletions;
ghost use Rattle.netlist_model.specs.Sound.{Fits, HasOutput, IsPin};
ghost use Rattle.netlist_model.specs.Statements as spec;
ghost use Rattle.netlist_model.specs.declared.parts.NetRef.TheVariants.{Net, Const};

use super::{Netlist, find_cell, inst_cell};
use crate::drivers::last_pin;
use crate::faults::StatementFault;
use crate::parts::{Delays, Instance, NetRef, event_after};
use crate::wiring::{no_delays, pin_at, ref_of};
use cell_arcs::{Cell, Library};
use cyc_text::Text;
use std::alloc::AllocError;

impl Netlist {
    /// Another netlist of the same tables. `AllocError` only for want of memory.
    pub fn copy(&self) -> Result<Netlist, AllocError>
        ensures { IfOk result (λ n. n ≡ self.now) }
    {
        Ok(Netlist {
            alloc: self.alloc,
            nets: self.nets.copy()?,
            consts: self.consts.copy()?,
            insts: self.insts.copy()?,
            ticks: self.ticks.copy()?,
            forks: self.forks.copy()?,
            root: self.root,
        })
    }

    /// Takes an instance away. The others keep their order.
    #[tactic(auto, unfolding(crate::specs::Deletions::del_inst))]
    pub fn del_inst(&mut self, name: &[u8]) -> Result<(), StatementFault>
        ensures ok { OnOk result (deletions.del_inst self.old name.now ≡ Ok self.new) }
        ensures refused { IfErr result (λ e. e ≢ StatementFault.Memory → deletions.del_inst self.old name.now ≡ Err e) }
        ensures unchanged { OnErr result (self.new ≡ self.old) }
        ensures fits { (library : List Cell) → Fits library self.old.insts → Fits library self.new.insts }
    {
        let Some(at) = self.insts.find(name) else {
            return Err(StatementFault::UnknownInst);
        };
        self.insts.remove(at);
        Ok(())
    }

    /// Whether the root is an event of the net.
    fn is_root_of(&self, net: u32) -> bool
        ensures { result ≡ option_map_or (deletions.is_event_of net) self.now.root false }
    {
        match self.root {
            Some(root) => net == root / 2,
            None => false,
        }
    }

    /// Whether a pin, a tick, the root or a fork uses a net or constant.
    fn is_used(&self, to: NetRef) -> bool
        ensures { result ≡ deletions.is_used self.now to }
    {
        match to {
            NetRef::Net(net) => {
                self.insts.is_pinned(to)
                    || self.ticks.is_ticked(net)
                    || self.is_root_of(net)
                    || self.forks.is_forked(net)
            }
            NetRef::Const(_) => self.insts.is_pinned(to),
        }
    }

    /// Takes away a net that nothing uses.
    fn leave_net(&mut self, net: u32) -> Result<(), AllocError>
        requires within { net < length self.old.nets }
        requires unused { deletions.is_used self.old (Net net) ≡ false }
        ensures ok { OnOk result (self.new ≡ deletions.after_ref self.old (Net net)) }
        ensures err { OnErr result (self.new ≡ self.old) }
    {
        self.forks.leave(net)?;
        self.nets.remove(net as usize);
        self.insts.leave(NetRef::Net(net));
        self.ticks.leave(net);
        self.root = root_after(net, self.root);
        Ok(())
    }

    /// Takes away a constant that nothing uses.
    fn leave_const(&mut self, at: u32)
        requires within { at < length self.old.consts }
        requires unused { deletions.is_used self.old (Const at) ≡ false }
        ensures { self.new ≡ deletions.after_ref self.old (Const at) }
    {
        self.consts.remove(at as usize);
        self.insts.leave(NetRef::Const(at));
    }

    /// Takes away a net or constant that nothing uses.
    fn leave(&mut self, gone: NetRef) -> Result<(), AllocError>
        requires within { IsPin (length self.old.nets) (length self.old.consts) gone }
        requires unused { deletions.is_used self.old gone ≡ false }
        ensures ok { OnOk result (self.new ≡ deletions.after_ref self.old gone) }
        ensures err { OnErr result (self.new ≡ self.old) }
    {
        match gone {
            NetRef::Net(net) => self.leave_net(net),
            NetRef::Const(at) => {
                self.leave_const(at);
                Ok(())
            }
        }
    }

    /// Takes away a net or a constant that no pin, no tick, no fork and not the root uses. The later ones of
    /// its list move up by one, and all that names them moves with them.
    #[tactic(auto, unfolding(crate::specs::Deletions::del_net))]
    pub fn del_net(&mut self, name: &[u8]) -> Result<(), StatementFault>
        ensures ok { OnOk result (deletions.del_net self.old name.now ≡ Ok self.new) }
        ensures refused { IfErr result (λ e. e ≢ StatementFault.Memory → deletions.del_net self.old name.now ≡ Err e) }
        ensures unchanged { OnErr result (self.new ≡ self.old) }
        ensures fits { (library : List Cell) → Fits library self.old.insts → Fits library self.new.insts }
    {
        let Some(gone) = ref_of(&self.nets, &self.consts, name) else {
            return Err(StatementFault::UnknownNet);
        };
        if self.is_used(gone) {
            return Err(StatementFault::StillUsed);
        }
        self.leave(gone)?;
        Ok(())
    }

    /// The net that the output of the instance at a place may be on, or why it may not be on this.
    fn free_for(&self, at: usize, output: NetRef) -> Result<u32, StatementFault>
        ensures ok { IfOk result (λ n. (output ≡ Net n) × ((k : ℕ) → driver_of self.now.insts n ≡ Some k → k ≡ at)) }
        ensures none { IfOk result (λ _. spec.moved_output_fault self.now.insts at output ≡ None) }
        ensures refused { IfErr result (λ e. spec.moved_output_fault self.now.insts at output ≡ Some e) }
    {
        let NetRef::Net(net) = output else {
            return Err(StatementFault::ConstDriven);
        };
        let count = self.insts.list().len();
        match self.insts.driver(net) {
            Some(driver) => {
                if driver == at {
                    return Ok(net);
                }
                prove!(driver < count);
                Err(StatementFault::DriverTaken(driver + 1))
            }
            None => Ok(net),
        }
    }

    /// Puts a pin of an instance on another net or constant; an output on a net that no other instance drives.
    #[tactic(auto, unfolding(crate::specs::Statements::move_pin))]
    pub fn move_pin(
        &mut self,
        library: &Library,
        inst: &[u8],
        pin: &[u8],
        net: &[u8],
    ) -> Result<(), StatementFault>
        requires { Fits library.now self.old.insts }
        ensures ok { OnOk result (spec.move_pin library.now self.old inst.now pin.now net.now ≡ Ok self.new) }
        ensures refused { IfErr result (λ e. e ≢ StatementFault.Memory → spec.move_pin library.now self.old inst.now pin.now net.now ≡ Err e) }
        ensures unchanged { OnErr result (self.new ≡ self.old) }
        ensures fits { Fits library.now self.new.insts }
    {
        let Some(at) = self.insts.find(inst) else {
            return Err(StatementFault::UnknownInst);
        };
        let cell = inst_cell(library, self.insts.list(), at);
        let Some(place) = pin_at(cell, pin) else {
            return Err(StatementFault::UnknownPin);
        };
        let Some(to) = ref_of(&self.nets, &self.consts, net) else {
            return Err(StatementFault::UnknownNet);
        };
        if place == cell.inputs.list().len() {
            let net = self.free_for(at, to)?;
            let old = output_net(&self.insts.list()[at]);
            self.insts.set_output(at, place, old, net)?;
            return Ok(());
        }
        self.insts.set_input(at, place, to);
        Ok(())
    }

    /// Makes an instance one of another cell with the same pins. It keeps what they are on, and loses its own delays.
    #[tactic(auto, unfolding(crate::specs::Statements::swap_cell))]
    pub fn swap_cell(
        &mut self,
        library: &Library,
        inst: &[u8],
        cell: &[u8],
    ) -> Result<(), StatementFault>
        requires { Fits library.now self.old.insts }
        ensures ok { OnOk result (spec.swap_cell library.now self.old inst.now cell.now ≡ Ok self.new) }
        ensures refused { IfErr result (λ e. e ≢ StatementFault.Memory → spec.swap_cell library.now self.old inst.now cell.now ≡ Err e) }
        ensures unchanged { OnErr result (self.new ≡ self.old) }
        ensures fits { Fits library.now self.new.insts }
    {
        let Some(at) = self.insts.find(inst) else {
            return Err(StatementFault::UnknownInst);
        };
        let old = inst_cell(library, self.insts.list(), at);
        let Some(to) = find_cell(library, cell) else {
            return Err(StatementFault::UnknownCell);
        };
        let new = library.cell(to);
        if !has_pins_of(old, new) {
            return Err(StatementFault::BadPins);
        }
        let delays = Delays::of(no_delays(self.alloc, new.arcs.list())?);
        self.insts.set_cell(at, to, delays);
        Ok(())
    }

    /// Takes a fork away. The others keep their order.
    #[tactic(auto, unfolding(crate::specs::Deletions::del_fork))]
    pub fn del_fork(&mut self, name: &[u8]) -> Result<(), StatementFault>
        ensures ok { OnOk result (deletions.del_fork self.old name.now ≡ Ok self.new) }
        ensures refused { IfErr result (λ e. e ≢ StatementFault.Memory → deletions.del_fork self.old name.now ≡ Err e) }
        ensures unchanged { OnErr result (self.new ≡ self.old) }
        ensures fits { (library : List Cell) → Fits library self.old.insts → Fits library self.new.insts }
    {
        let Some(at) = self.forks.find(name) else {
            return Err(StatementFault::UnknownFork);
        };
        self.forks.remove(at)?;
        Ok(())
    }
}

/// The root, once a net is away.
fn root_after(gone: u32, root: Option<u32>) -> Option<u32>
    ensures { result ≡ option_map (deletions.event_after gone) root }
{
    match root {
        Some(root) => Some(event_after(gone, root)),
        None => None,
    }
}

/// The net that the output of an instance is on.
fn output_net(instance: &Instance) -> u32
    requires { HasOutput (last_of instance.now.pins) }
    ensures { last_of instance.now.pins ≡ Some (Net result) }
{
    match last_pin(instance.pins.list()) {
        Some(NetRef::Net(net)) => net,
        Some(NetRef::Const(_)) => 0,
        None => 0,
    }
}

/// Whether the cells have the same input names in the same order and the same output name.
fn has_pins_of(old: &Cell, new: &Cell) -> bool
    ensures { result ≡ spec.has_pins_of old.now new.now }
{
    have_names_of(old.inputs.list(), new.inputs.list()) && old.output.bytes() == new.output.bytes()
}

/// Whether they are the same names in the same order.
fn have_names_of(old: &[Text], new: &[Text]) -> bool
    ensures { result ≡ pointwise bytes_eq old.now new.now }
{
    if old.len() != new.len() {
        return false;
    }
    for at in 0..old.len() {
        if old[at].bytes() != new[at].bytes() {
            return false;
        }
    }
    true
}
