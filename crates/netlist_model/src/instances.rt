// The instances of a netlist, found by name and by the net that they drive.
ghost use Rattle.std.specs.Prelude.{◌≡◌, ◌++◌, ◌∷◌, [], ◌+◌, ◌<◌, ℕ, false, None, length, map, remove, slice_get, slice_set, Some, OnOk, OnErr, IfOk, IfSome};
ghost use Rattle.std.specs.List.{IsDistinct, list_any};
ghost use Rattle.std.specs.Option.{option_map_or};
ghost use Rattle.std.specs.Str.{bytes_eq};
ghost use Rattle.netlist_model.specs.ArcRules.{HaveOneDriver};
ghost use Rattle.netlist_model.specs.Circuit.{inst_of, driver_of, last_of};
ghost use Rattle.netlist_model.specs.Deletions as deletions;
ghost use Rattle.netlist_model.specs.Deletions.{inst_after};
ghost use Rattle.netlist_model.specs.Keyed.{told_at};
ghost use Rattle.netlist_model.specs.Statements.{with_delay, with_pin};
ghost use Rattle.netlist_model.specs.Uses.{TellsPins, uses_of};
ghost use Rattle.netlist_model.specs.declared.parts.Instance.{Instance};
ghost use Rattle.netlist_model.specs.declared.parts.NetRef.TheVariants.{Net};

use crate::drivers::{close_up, forget, reach, release};
use crate::keys::Keys;
use crate::parts::{Delay, Delays, Instance, NetRef};
use crate::uses::PinUses;
use std::alloc::{AllocError, Global};
use std::marker::Model;

/// Instances in order, with their places by name and by the net that they drive, and how many pins are on each net.
#[derive(Drop)]
pub(crate) struct Instances {
    items: Vec<Instance>,
    names: Keys,
    drivers: Vec<Option<usize>>,
    uses: PinUses,
}

impl Model for Instances {
    ghost use Rattle.std.specs.Prelude.{List};
    ghost use Rattle.netlist_model.specs.declared.parts.Instance.{Instance};

    ghost Value = { List Instance };

    ghost view = { λ s. s.items.items };

    ghost use Rattle.std.specs.Prelude.{◌≡◌, ℕ, map};
    ghost use Rattle.netlist_model.specs.Circuit.{driver_of};
    ghost use Rattle.netlist_model.specs.Keyed.{told_at};
    ghost use Rattle.netlist_model.specs.Uses.{TellsPins, uses_of};

    ghost invariant = { λ s. (s.names ≡ map (λ i. i.name) s.items.items)
        × ((n : ℕ) → told_at s.drivers.items n ≡ driver_of s.items.items n)
        × TellsPins s.uses (uses_of s.items.items) };
}

impl Instances {
    pub(crate) fn empty(alloc: Global) -> Instances
        ensures { result ≡ [] }
    {
        Instances {
            items: Vec::new(alloc),
            names: Keys::empty(alloc),
            drivers: Vec::new(alloc),
            uses: PinUses::empty(alloc),
        }
    }

    pub(crate) fn list(&self) -> &[Instance]
        ensures { result.now ≡ self.now }
    {
        self.items.as_slice()
    }

    pub(crate) fn find(&self, name: &[u8]) -> Option<usize>
        ensures place { result ≡ inst_of self.now name.now }
        ensures within { IfSome result (λ at. at < length self.now) }
    {
        let _items = &self.items;
        self.names.find(name)
    }

    /// The place of the instance that drives a net.
    pub(crate) fn driver(&self, net: u32) -> Option<usize>
        ensures place { result ≡ driver_of self.now net }
        ensures within { IfSome result (λ at. at < length self.now) }
    {
        match self.drivers.get(net as usize) {
            Some(driver) => *driver,
            None => None,
        }
    }

    /// Puts an instance last, whose output is on the net.
    pub(crate) fn push(&mut self, instance: Instance, net: u32) -> Result<(), AllocError>
        requires fresh { inst_of self.old instance.name ≡ None }
        requires output { last_of instance.pins ≡ Some (Net net) }
        requires free { driver_of self.old net ≡ None }
        ensures ok { OnOk result (self.new ≡ self.old ++ instance ∷ []) }
        ensures err { OnErr result (self.new ≡ self.old) }
    {
        self.items.reserve(1)?;
        reach(&mut self.drivers, net as usize)?;
        self.names.push(instance.name.bytes())?;
        let at = self.items.len();
        self.drivers[net as usize] = Some(at);
        self.uses.raise_all(instance.pins.list());
        let _ = self.items.push(instance);
        Ok(())
    }

    /// Gives the instance at a place delays of its own for an arc.
    pub(crate) fn set_delay(&mut self, at: usize, arc: usize, delay: Delay)
        requires within { at < length self.old }
        requires arc { (i : Instance) → slice_get self.old at ≡ Some i → arc < length i.delays }
        ensures { self.new ≡ with_delay self.old at arc delay.rise delay.fall }
    {
        let instance = &mut self.items[at];
        instance.delays.set(arc, delay);
    }

    /// Takes the instance at a place away. The others keep their order.
    pub(crate) fn remove(&mut self, at: usize)
        requires within { at < length self.old }
        requires differ { IsDistinct bytes_eq (map (λ i. i.name) self.old) }
        requires driven { HaveOneDriver self.old }
        ensures { self.new ≡ remove self.old at }
    {
        self.names.remove(at);
        leave_driver(&mut self.drivers, &self.items, at);
        let gone = self.items.remove(at);
        self.uses.lower_all(gone.pins.list());
    }

    /// Puts an input of the instance at a place on another net or constant.
    pub(crate) fn set_input(&mut self, at: usize, pin: usize, to: NetRef)
        requires within { at < length self.old }
        requires input { (i : Instance) → slice_get self.old at ≡ Some i → pin + 1 < length i.pins }
        ensures { self.new ≡ with_pin self.old at pin to }
    {
        let instance = &mut self.items[at];
        let from = pin_on(instance, pin);
        instance.pins.set(pin, to);
        self.uses.raise(to);
        self.uses.lower(from);
    }

    /// Puts the output of the instance at a place on a net that no other instance drives.
    pub(crate) fn set_output(
        &mut self,
        at: usize,
        pin: usize,
        old: u32,
        net: u32,
    ) -> Result<(), AllocError>
        requires within { at < length self.old }
        requires output { (i : Instance) → slice_get self.old at ≡ Some i → (length i.pins ≡ pin + 1) × (last_of i.pins ≡ Some (Net old)) }
        requires driven { HaveOneDriver self.old }
        requires free { (k : ℕ) → driver_of self.old net ≡ Some k → k ≡ at }
        ensures ok { OnOk result (self.new ≡ with_pin self.old at pin (Net net)) }
        ensures err { OnErr result (self.new ≡ self.old) }
    {
        reach(&mut self.drivers, old as usize)?;
        reach(&mut self.drivers, net as usize)?;
        self.drivers[old as usize] = None;
        self.drivers[net as usize] = Some(at);
        let instance = &mut self.items[at];
        instance.pins.set(pin, NetRef::Net(net));
        self.uses.raise(NetRef::Net(net));
        self.uses.lower(NetRef::Net(old));
        Ok(())
    }

    /// Makes the instance at a place one of another cell, with these delays of its own.
    pub(crate) fn set_cell(&mut self, at: usize, cell: usize, delays: Delays)
        requires { at < length self.old }
        ensures { self.new ≡ option_map_or (λ i. slice_set self.old at (record i { cell = cell; delays = delays })) (slice_get self.old at) self.old }
    {
        let instance = &mut self.items[at];
        instance.cell = cell;
        instance.delays = delays;
    }

    /// Whether a pin is on the net or constant. Where it is not known how many are, the instances are gone over.
    pub(crate) fn is_pinned(&self, to: NetRef) -> bool
        ensures { result ≡ list_any (deletions.is_pinned to) self.now }
    {
        match self.uses.count(to) {
            Some(count) => count > 0,
            None => any_pinned(to, &self.items),
        }
    }

    /// Moves up what the pins are on, once this net or constant, on which no pin is, is away. The instances are gone
    /// over only where a pin may be on a later one.
    pub(crate) fn leave(&mut self, gone: NetRef)
        requires { list_any (deletions.is_pinned gone) self.old ≡ false }
        ensures { self.new ≡ map (inst_after gone) self.old }
    {
        move_up(&mut self.items, &self.uses, gone);
        self.uses.leave(gone);
        match gone {
            NetRef::Net(net) => forget(&mut self.drivers, net as usize),
            NetRef::Const(_) => {}
        }
    }

    /// The same instances in the same order.
    pub(crate) fn copy(&self) -> Result<Instances, AllocError>
        requires differ { IsDistinct bytes_eq (map (λ i. i.name) self.now) }
        requires driven { HaveOneDriver self.now }
        ensures { IfOk result (λ s. s ≡ self.now) }
    {
        let items = copies(*self.items.allocator(), &self.items)?;
        let names = self.names.copy()?;
        let drivers = Vec::from_slice(*self.drivers.allocator(), &self.drivers)?;
        let uses = self.uses.copy()?;
        Ok(Instances {
            items,
            names,
            drivers,
            uses,
        })
    }
}

/// Tells the drivers, once the instance at `gone` is away. Where it is the last, the places of the others stay.
fn leave_driver(drivers: &mut Vec<Option<usize>>, items: &[Instance], gone: usize)
    requires within { gone < length items.now }
    requires told { (n : ℕ) → told_at drivers.old.items n ≡ driver_of items.now n }
    requires driven { HaveOneDriver items.now }
    ensures { (n : ℕ) → told_at drivers.new.items n ≡ driver_of (remove items.now gone) n }
{
    if gone == items.len() - 1 {
        release(drivers, items[gone].pins.list());
    } else {
        close_up(drivers, gone);
    }
}

/// What a pin of the instance is on.
fn pin_on(instance: &Instance, pin: usize) -> NetRef
    requires { pin < length instance.now.pins }
    ensures { slice_get instance.now.pins pin ≡ Some result }
{
    instance.pins.list()[pin]
}

/// Whether a pin of the instances is on the net or constant.
fn any_pinned(to: NetRef, items: &[Instance]) -> bool
    ensures { result ≡ list_any (deletions.is_pinned to) items.now }
{
    items.iter().any(|instance| is_pinned(to, instance))
}

/// Whether a pin of the instance is on the net or constant.
fn is_pinned(to: NetRef, instance: &Instance) -> bool
    ensures { result ≡ deletions.is_pinned to instance.now }
{
    instance.pins.list().iter().any(|pin| is_same(to, *pin))
}

/// Whether they are one net or one constant.
fn is_same(a: NetRef, b: NetRef) -> bool
    ensures { result ≡ deletions.is_same a b }
{
    match (a, b) {
        (NetRef::Net(n), NetRef::Net(m)) => n == m,
        (NetRef::Const(k), NetRef::Const(l)) => k == l,
        (NetRef::Net(_), NetRef::Const(_)) => false,
        (NetRef::Const(_), NetRef::Net(_)) => false,
    }
}

/// Moves up what the pins are on. Where no pin is on anything behind what is away, nothing is to be done.
fn move_up(items: &mut Vec<Instance>, uses: &PinUses, gone: NetRef)
    requires tells { TellsPins uses.now (uses_of items.old.items) }
    requires free { list_any (deletions.is_pinned gone) items.old.items ≡ false }
    ensures { items.new.items ≡ map (inst_after gone) items.old.items }
{
    if uses.is_last(gone) {
        return;
    }
    leave_all(items, gone);
}

fn leave_all(items: &mut [Instance], gone: NetRef)
    ensures { items.new ≡ map (inst_after gone) items.old }
{
    for instance in items.iter_mut() {
        instance.pins.leave(gone);
    }
}

fn copies(alloc: Global, items: &[Instance]) -> Result<Vec<Instance>, AllocError>
    ensures { IfOk result (λ v. v.items ≡ items.now) }
{
    let mut copies = Vec::with_capacity(alloc, items.len())?;
    for instance in items {
        copies.push(instance.copy()?)?;
    }
    Ok(copies)
}
