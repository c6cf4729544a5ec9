// How often nets and constants are named, as long as that is known.
ghost use Rattle.std.specs.Prelude.{◌≡◌, ◌+◌, ◌<◌, ℕ, true, IfOk, IfSome, if◌then◌else◌, length, map, nat_lt, option_map, remove};
ghost use Rattle.netlist_model.specs.Uses.{IsBehind, Tells, TellsPins, count_at, many_at, moved_back, one_on, pins_on, ref_before};
ghost use Rattle.netlist_model.specs.declared.parts.NetRef.{NetRef};

use crate::parts::NetRef;
use std::alloc::{AllocError, Global};
use std::marker::Model;

/// How often each place of a list is named. Where a count cannot be kept, for want of memory, none is known any longer.
#[derive(Drop)]
pub(crate) struct Uses {
    counts: Option<Vec<usize>>,
}

impl Model for Uses {
    ghost use Rattle.std.specs.Prelude.{ℕ, List, Option, option_map};

    ghost Value = { Option (List ℕ) };

    ghost view = { λ c. option_map (λ v. v.items) c.counts };
}

impl Uses {
    /// Nothing is named.
    pub(crate) fn empty(alloc: Global) -> Uses
        ensures { Tells result (λ _. 0) }
    {
        Uses {
            counts: Some(Vec::new(alloc)),
        }
    }

    /// Counts one more at a place.
    pub(crate) fn raise(&mut self, place: u32)
        ensures { (u : ℕ → ℕ) → Tells self.old u → Tells self.new (λ n. u n + many_at 1 place n) }
    {
        self.counts = raised(self.counts.take(), place as usize);
    }

    /// Counts so many less at a place.
    pub(crate) fn lower(&mut self, place: u32, many: usize)
        ensures { (u : ℕ → ℕ) → Tells self.old (λ n. u n + many_at many place n) → Tells self.new u }
    {
        self.counts = lowered(self.counts.take(), place as usize, many);
    }

    /// Takes a place away. The later ones move up by one.
    pub(crate) fn leave(&mut self, place: u32)
        ensures { (u : ℕ → ℕ) → Tells self.old u → Tells self.new (λ n. u (moved_back place n)) }
    {
        self.counts = left(self.counts.take(), place as usize);
    }

    /// How often a place is named, if that is known.
    pub(crate) fn count(&self, place: u32) -> Option<usize>
        ensures { (u : ℕ → ℕ) → Tells self.now u → IfSome result (λ many. many ≡ u place) }
    {
        match &self.counts {
            Some(counts) => Some(count_in(counts, place as usize)),
            None => None,
        }
    }

    /// Whether it is known that no place behind this one is named.
    pub(crate) fn is_last(&self, place: u32) -> bool
        ensures { result ≡ true → (u : ℕ → ℕ) → Tells self.now u → (n : ℕ) → place < n → u n ≡ 0 }
    {
        match &self.counts {
            Some(counts) => is_last_in(counts, place as usize),
            None => false,
        }
    }

    /// The same counts.
    pub(crate) fn copy(&self) -> Result<Uses, AllocError>
        ensures { IfOk result (λ c. c ≡ self.now) }
    {
        match &self.counts {
            Some(counts) => Ok(Uses {
                counts: Some(Vec::from_slice(*counts.allocator(), counts)?),
            }),
            None => Ok(Uses { counts: None }),
        }
    }
}

fn raised(counts: Option<Vec<usize>>, place: usize) -> Option<Vec<usize>>
    ensures { (u : ℕ → ℕ) → Tells (option_map (λ v. v.items) counts) u → Tells (option_map (λ v. v.items) result) (λ n. u n + many_at 1 place n) }
{
    let mut counts = counts?;
    reach(&mut counts, place)?;
    let count = counts[place].checked_add(1)?;
    counts[place] = count;
    Some(counts)
}

/// Makes room for the count of a place. What is told stays.
fn reach(counts: &mut Vec<usize>, place: usize) -> Option<()>
    ensures told { (n : ℕ) → count_at counts.new.items n ≡ count_at counts.old.items n }
    ensures room { IfSome result (λ _. place < length counts.new.items) }
{
    let count = place.checked_add(1)?;
    if count > counts.len() {
        counts.resize(count, 0).ok()?;
    }
    Some(())
}

fn lowered(counts: Option<Vec<usize>>, place: usize, many: usize) -> Option<Vec<usize>>
    ensures { (u : ℕ → ℕ) → Tells (option_map (λ v. v.items) counts) (λ n. u n + many_at many place n) → Tells (option_map (λ v. v.items) result) u }
{
    let mut counts = counts?;
    if counts.len() <= place {
        return None;
    }
    counts[place] = counts[place].checked_sub(many)?;
    Some(counts)
}

fn left(counts: Option<Vec<usize>>, place: usize) -> Option<Vec<usize>>
    ensures { (u : ℕ → ℕ) → Tells (option_map (λ v. v.items) counts) u → Tells (option_map (λ v. v.items) result) (λ n. u (moved_back place n)) }
{
    let mut counts = counts?;
    forget(&mut counts, place);
    Some(counts)
}

/// Takes the count of a place away, if it has one.
fn forget(counts: &mut Vec<usize>, place: usize)
    ensures { counts.new.items ≡ (if nat_lt place (length counts.old.items) then remove counts.old.items place else counts.old.items) }
{
    if place < counts.len() {
        let _ = counts.remove(place);
    }
}

fn count_in(counts: &[usize], place: usize) -> usize
    ensures { result ≡ count_at counts.now place }
{
    match counts.get(place) {
        Some(count) => *count,
        None => 0,
    }
}

fn is_last_in(counts: &[usize], place: usize) -> bool
    requires { place < 4294967296 }
    ensures { result ≡ true → (n : ℕ) → place < n → count_at counts.now n ≡ 0 }
{
    for at in place + 1..counts.len() {
        if counts[at] != 0 {
            return false;
        }
    }
    true
}

/// How many pins are on each net and on each constant.
#[derive(Drop)]
pub(crate) struct PinUses {
    nets: Uses,
    consts: Uses,
}

impl Model for PinUses {
    ghost use Rattle.std.specs.Prelude.{ℕ, List, Option};

    ghost Value = { Option (List ℕ) × Option (List ℕ) };

    ghost view = { λ p. (p.nets, p.consts) };
}

impl PinUses {
    /// No pin is on anything.
    pub(crate) fn empty(alloc: Global) -> PinUses
        ensures { TellsPins result (λ _. 0) }
    {
        PinUses {
            nets: Uses::empty(alloc),
            consts: Uses::empty(alloc),
        }
    }

    /// Counts one more pin.
    pub(crate) fn raise(&mut self, to: NetRef)
        ensures { (u : NetRef → ℕ) → TellsPins self.old u → TellsPins self.new (λ r. u r + one_on r to) }
    {
        match to {
            NetRef::Net(net) => self.nets.raise(net),
            NetRef::Const(at) => self.consts.raise(at),
        }
    }

    /// Counts one pin less.
    pub(crate) fn lower(&mut self, to: NetRef)
        ensures { (u : NetRef → ℕ) → TellsPins self.old (λ r. u r + one_on r to) → TellsPins self.new u }
    {
        match to {
            NetRef::Net(net) => self.nets.lower(net, 1),
            NetRef::Const(at) => self.consts.lower(at, 1),
        }
    }

    /// Counts the pins of a new instance.
    pub(crate) fn raise_all(&mut self, pins: &[NetRef])
        ensures { (u : NetRef → ℕ) → TellsPins self.old u → TellsPins self.new (λ r. u r + pins_on r pins.now) }
    {
        for pin in pins {
            self.raise(*pin);
        }
    }

    /// Counts the pins of an instance no longer.
    pub(crate) fn lower_all(&mut self, pins: &[NetRef])
        ensures { (u : NetRef → ℕ) → TellsPins self.old (λ r. u r + pins_on r pins.now) → TellsPins self.new u }
    {
        for pin in pins {
            self.lower(*pin);
        }
    }

    /// Takes a net or constant away. The later ones of its list move up by one.
    pub(crate) fn leave(&mut self, gone: NetRef)
        ensures { (u : NetRef → ℕ) → TellsPins self.old u → TellsPins self.new (λ r. u (ref_before gone r)) }
    {
        match gone {
            NetRef::Net(net) => self.nets.leave(net),
            NetRef::Const(at) => self.consts.leave(at),
        }
    }

    /// How many pins are on a net or constant, if that is known.
    pub(crate) fn count(&self, to: NetRef) -> Option<usize>
        ensures { (u : NetRef → ℕ) → TellsPins self.now u → IfSome result (λ many. many ≡ u to) }
    {
        match to {
            NetRef::Net(net) => self.nets.count(net),
            NetRef::Const(at) => self.consts.count(at),
        }
    }

    /// Whether it is known that no pin is on anything behind this net or constant.
    pub(crate) fn is_last(&self, gone: NetRef) -> bool
        ensures { result ≡ true → (u : NetRef → ℕ) → TellsPins self.now u → (r : NetRef) → IsBehind gone r → u r ≡ 0 }
    {
        match gone {
            NetRef::Net(net) => self.nets.is_last(net),
            NetRef::Const(at) => self.consts.is_last(at),
        }
    }

    /// The same counts.
    pub(crate) fn copy(&self) -> Result<PinUses, AllocError>
        ensures { IfOk result (λ p. p ≡ self.now) }
    {
        Ok(PinUses {
            nets: self.nets.copy()?,
            consts: self.consts.copy()?,
        })
    }
}
