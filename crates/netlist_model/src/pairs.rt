// Where the ticks of pairs of events are.
ghost use Rattle.std.specs.Prelude.{◌≡◌, ℕ, None, Some, cond, nat_lt, remove, length, if◌then◌else◌, IfOk, OnErr, OnOk};
ghost use Rattle.netlist_model.specs.Blocks.{pair_eq};
ghost use Rattle.netlist_model.specs.Keyed.{event_before, key_of, told_of};

use crate::pair_table::PairTable;
use std::alloc::{AllocError, Global};
use std::marker::Model;

/// The block of a tick, and the tick's count.
#[derive(Clone, Copy, Drop)]
pub(crate) struct Place {
    pub(crate) block: usize,
    pub(crate) count: u32,
}

/// The places of ticks by their pairs of events. Each event keeps a number while nets come and go, and a table finds a
/// place by two numbers: so no key changes where a net is taken away.
#[derive(Drop)]
pub(crate) struct Pairs {
    places: PairTable,
    numbers: Vec<u64>,
    next: u64,
}

impl Model for Pairs {
    ghost use Rattle.std.specs.Prelude.{ℕ, List};
    ghost use Rattle.netlist_model.specs.Keyed.{IsNumbered};
    ghost use Rattle.netlist_model.specs.declared.pairs.Place.{Place};
    ghost use Rattle.netlist_model.specs.PairTables.{Table};

    ghost Value = { Table Place × List ℕ };

    ghost view = { λ p. (p.places, p.numbers.items) };

    ghost invariant = { λ p. IsNumbered p.places p.numbers.items p.next };
}

impl Pairs {
    pub(crate) fn empty(alloc: Global) -> Pairs
        ensures { (s t : ℕ) → told_of result s t ≡ None }
    {
        Pairs {
            places: PairTable::empty(alloc),
            numbers: Vec::new(alloc),
            next: 0,
        }
    }

    /// The place of a pair's tick.
    pub(crate) fn find(&self, source: u32, target: u32) -> Option<Place>
        ensures { result ≡ told_of self.now source target }
    {
        match key(&self.numbers, source, target) {
            Some(key) => self.places.find(key),
            None => None,
        }
    }

    /// Gives one more event a number.
    fn grow(&mut self) -> Result<(), AllocError>
        ensures { (u v : ℕ) → told_of self.new u v ≡ told_of self.old u v }
    {
        let number = self.next;
        let Some(next) = number.checked_add(1) else {
            return Err(AllocError);
        };
        self.numbers.push(number)?;
        self.next = next;
        Ok(())
    }

    /// Gives the events up to this one numbers.
    fn reach(&mut self, event: u32) -> Result<(), AllocError>
        ensures { (u v : ℕ) → told_of self.new u v ≡ told_of self.old u v }
    {
        let known = self.numbers.len();
        'numbering: for _ in known..event as usize + 1 {
            self.grow()?;
        }
        Ok(())
    }

    /// Tells the place of a pair's tick.
    fn put(&mut self, source: u32, target: u32, place: Place) -> Result<(), AllocError>
        ensures ok { OnOk result ((u v : ℕ) → told_of self.new u v ≡ cond (pair_eq (source, target) (u, v)) (Some place) (told_of self.old u v)) }
        ensures err { OnErr result ((u v : ℕ) → told_of self.new u v ≡ told_of self.old u v) }
    {
        let Some(key) = key(&self.numbers, source, target) else {
            return Err(AllocError);
        };
        self.places.insert(key, place)?;
        Ok(())
    }

    /// Tells the place of a pair's tick.
    pub(crate) fn insert(
        &mut self,
        source: u32,
        target: u32,
        place: Place,
    ) -> Result<(), AllocError>
        ensures ok { OnOk result ((u v : ℕ) → told_of self.new u v ≡ cond (pair_eq (source, target) (u, v)) (Some place) (told_of self.old u v)) }
        ensures err { OnErr result ((u v : ℕ) → told_of self.new u v ≡ told_of self.old u v) }
    {
        self.reach(source)?;
        self.reach(target)?;
        self.put(source, target, place)
    }

    /// Forgets the place of a pair's tick.
    pub(crate) fn remove(&mut self, source: u32, target: u32) -> Option<Place>
        ensures value { result ≡ told_of self.old source target }
        ensures updates { (u v : ℕ) → told_of self.new u v ≡ cond (pair_eq (source, target) (u, v)) None (told_of self.old u v) }
    {
        match key(&self.numbers, source, target) {
            Some(key) => self.places.remove(key),
            None => None,
        }
    }

    /// Forgets the events of a net, which no tick has, and moves the later ones up.
    pub(crate) fn leave(&mut self, gone: u32)
        ensures { (u v : ℕ) → told_of self.new u v ≡ told_of self.old (event_before gone u) (event_before gone v) }
    {
        forget(&mut self.numbers, 2 * gone as usize + 1);
        forget(&mut self.numbers, 2 * gone as usize);
    }

    /// The same places.
    pub(crate) fn copy(&self) -> Result<Pairs, AllocError>
        ensures { IfOk result (λ p. (u v : ℕ) → told_of p u v ≡ told_of self.now u v) }
    {
        Ok(Pairs {
            places: self.places.copy()?,
            numbers: Vec::from_slice(*self.numbers.allocator(), &self.numbers)?,
            next: self.next,
        })
    }
}

/// The numbers of two events, if both have one.
fn key(numbers: &[u64], source: u32, target: u32) -> Option<(u64, u64)>
    ensures { result ≡ key_of numbers.now source target }
{
    let source = numbers.get(source as usize)?;
    let target = numbers.get(target as usize)?;
    Some((*source, *target))
}

/// Takes the number of an event away, if it has one.
fn forget(numbers: &mut Vec<u64>, event: usize)
    ensures { numbers.new.items ≡ (if nat_lt event (length numbers.old.items) then remove numbers.old.items event else numbers.old.items) }
{
    if event < numbers.len() {
        let _ = numbers.remove(event);
    }
}
