// Places that a hash of a name leads to, one place a hash.
ghost use Rattle.std.specs.Prelude.{◌≡◌, ◌≢◌, ◌<◌, ◌+◌, ℕ, List, true, None, Some, IfOk, IfSome, length, map};
ghost use Rattle.netlist_model.specs.Hints as spec;
ghost use Rattle.netlist_model.specs.Hints.{hash_after, hint_of, slot_of};
ghost use Rattle.netlist_model.specs.Keyed.{place_after};

use std::alloc::{AllocError, Global};
use std::marker::Model;

/// The fewest slots of a table, once it has one.
const LEAST: usize = 64;
/// The most slots of a table.
const MOST: usize = 1_048_576;

/// For each hash at most one place: 0 stands for none, and any other number for the place below it.
#[derive(Drop)]
pub(crate) struct Hints {
    slots: Vec<u32>,
}

impl Model for Hints {
    ghost use Rattle.std.specs.Prelude.{List, ℕ, length, ◌≤◌};

    ghost Value = { List ℕ };

    ghost view = { λ h. h.slots.items };

    ghost invariant = { λ h. length h.slots.items ≤ 1048576 };
}

impl Hints {
    pub(crate) fn empty(alloc: Global) -> Hints
        ensures { (name : List ℕ) → hint_of result name ≡ None }
    {
        Hints {
            slots: Vec::new(alloc),
        }
    }

    /// A table for twice as many names, without a place.
    pub(crate) fn for_names(alloc: Global, count: usize) -> Result<Hints, AllocError>
        ensures { IfOk result (λ h. (name : List ℕ) → hint_of h name ≡ None) }
    {
        let size = count.saturating_mul(4).clamp(LEAST, MOST);
        let slots = vec![in alloc; 0u32; size]?;
        Ok(Hints { slots })
    }

    /// Whether so many names want a larger table.
    pub(crate) fn is_small(&self, count: usize) -> bool {
        self.slots.len() / 2 < count && self.slots.len() < MOST
    }

    /// The place where the name may be.
    pub(crate) fn place(&self, name: &[u8]) -> Option<usize>
        ensures { result ≡ hint_of self.now name.now }
    {
        match self.slots.get(self.slot(name)) {
            Some(held) => place_in(*held),
            None => None,
        }
    }

    /// Notes the place of a name where its hash has none, and says whether it did.
    pub(crate) fn note(&mut self, name: &[u8], place: usize) -> bool
        ensures here { result ≡ true → hint_of self.new name.now ≡ Some place }
        ensures kept { (q : List ℕ) (k : ℕ) → hint_of self.old q ≡ Some k → hint_of self.new q ≡ Some k }
    {
        let slot = self.slot(name);
        let Some(held) = held_for(place) else {
            return false;
        };
        match self.slots.get_mut(slot) {
            Some(free) if *free == 0 => {
                *free = held;
                true
            }
            _ => false,
        }
    }

    /// Forgets the place of the last name.
    pub(crate) fn forget(&mut self, name: &[u8], place: usize)
        ensures { (q : List ℕ) (k : ℕ) → hint_of self.old q ≡ Some k → k ≢ place → hint_of self.new q ≡ Some k }
    {
        let slot = self.slot(name);
        if let Some(held) = self.slots.get_mut(slot) {
            if place_in(*held) == Some(place) {
                *held = 0;
            }
        }
    }

    /// Forgets the place of a name, and moves up those behind it.
    pub(crate) fn close_up(&mut self, gone: usize)
        ensures { (q : List ℕ) → hint_of self.new q ≡ place_after gone (hint_of self.old q) }
    {
        close_up(&mut self.slots, gone);
    }

    /// The same places.
    pub(crate) fn copy(&self) -> Result<Hints, AllocError>
        ensures { IfOk result (λ h. h ≡ self.now) }
    {
        let slots = Vec::from_slice(*self.slots.allocator(), &self.slots)?;
        Ok(Hints { slots })
    }

    /// The slot of a name. Hashes are spread over the table by their product with its size, of which the upper half counts.
    fn slot(&self, name: &[u8]) -> usize
        ensures { result ≡ slot_of (length self.now) name.now }
    {
        let size = self.slots.len() as u64;
        (hash(name) * size / 4_294_967_296) as usize
    }
}

/// A hash of 32 bits: Fowler, Noll and Vo's product, with a sum in place of an exclusive or.
fn hash(name: &[u8]) -> u64
    ensures hash { result ≡ hash_after 2166136261 name.now }
    ensures small { result < 4294967296 }
{
    let mut hash = 2_166_136_261u64;
    'bytes: for byte in name {
        hash = (hash + u64::from(*byte)) * 16_777_619 % 4_294_967_296;
    }
    hash
}

/// The place that a slot tells.
fn place_in(held: u32) -> Option<usize>
    ensures { result ≡ spec.place_in held }
{
    match held.checked_sub(1) {
        Some(place) => Some(place as usize),
        None => None,
    }
}

/// What a slot holds that tells a place, if a slot can hold it.
fn held_for(place: usize) -> Option<u32>
    ensures { IfSome result (λ held. held ≡ place + 1) }
{
    if place < MOST {
        Some(place as u32 + 1)
    } else {
        None
    }
}

/// What a slot holds, once a place is away.
fn held_after(gone: usize, held: u32) -> u32
    ensures { result ≡ spec.held_after gone held }
{
    match place_in(held) {
        Some(place) if place == gone => 0,
        Some(place) if place > gone => held - 1,
        _ => held,
    }
}

fn close_up(slots: &mut [u32], gone: usize)
    ensures { slots.new ≡ map (spec.held_after gone) slots.old }
{
    for held in slots.iter_mut() {
        *held = held_after(gone, *held);
    }
}
