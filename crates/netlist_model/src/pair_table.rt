// Places by two numbers: most stand where a hash of the two leads, and the others in an ordered map.
ghost use Rattle.std.specs.Prelude.{◌≡◌, ◌≤◌, ◌<◌, ℕ, None, Some, cond, false, true, length, IfOk, OnErr, OnOk};
ghost use Rattle.netlist_model.specs.Blocks.{pair_eq};
ghost use Rattle.netlist_model.specs.PairTables as spec;
ghost use Rattle.netlist_model.specs.PairTables.{held_at, mapped_at, pair_slot, placed_of};

use crate::pairs::Place;
use std::alloc::{AllocError, Global};
use std::collections::BTreeMap;
use std::marker::Model;

/// The fewest slots of a table, once it has one.
const LEAST: usize = 64;
/// The most slots of a table.
const MOST: usize = 262_144;

/// Places by two numbers. A pair stands in its slot where that was free when it came, and in an ordered map where not.
#[derive(Drop)]
pub(crate) struct PairTable {
    slots: Vec<Option<((u64, u64), Place)>>,
    others: BTreeMap<(u64, u64), Place>,
    count: usize,
}

impl Model for PairTable {
    ghost use Rattle.std.specs.Prelude.{ℕ, List, Option, length, ◌≤◌};
    ghost use Rattle.netlist_model.specs.declared.pairs.Place.{Place};

    ghost Value = { List (Option ((ℕ × ℕ) × Place)) × List ((ℕ × ℕ) × Place) };

    ghost view = { λ t. (t.slots.items, t.others.entries) };

    ghost invariant = { λ t. length t.slots.items ≤ 262144 };
}

impl PairTable {
    pub(crate) fn empty(alloc: Global) -> PairTable
        ensures { (key : ℕ × ℕ) → placed_of result key ≡ None }
    {
        PairTable {
            slots: Vec::new(alloc),
            others: BTreeMap::new(alloc),
            count: 0,
        }
    }

    /// The place of a pair.
    pub(crate) fn find(&self, key: (u64, u64)) -> Option<Place>
        ensures { result ≡ placed_of self.now key }
    {
        match held(&self.slots, key) {
            Some(place) => Some(place),
            None => self.others.get(&key).copied(),
        }
    }

    /// Notes the place of a pair.
    pub(crate) fn insert(&mut self, key: (u64, u64), place: Place) -> Result<(), AllocError>
        ensures ok { OnOk result ((q : ℕ × ℕ) → placed_of self.new q ≡ cond (pair_eq key q) (Some place) (placed_of self.old q)) }
        ensures err { OnErr result ((q : ℕ × ℕ) → placed_of self.new q ≡ placed_of self.old q) }
    {
        self.make_room()?;
        self.put(key, place)
    }

    /// Notes the place of a pair, in its slot if that is free or the pair's already.
    fn put(&mut self, key: (u64, u64), place: Place) -> Result<(), AllocError>
        ensures ok { OnOk result ((q : ℕ × ℕ) → placed_of self.new q ≡ cond (pair_eq key q) (Some place) (placed_of self.old q)) }
        ensures err { OnErr result ((q : ℕ × ℕ) → placed_of self.new q ≡ placed_of self.old q) }
    {
        self.count = self.count.saturating_add(1);
        put_into(&mut self.slots, &mut self.others, key, place)
    }

    /// Makes a larger table, where one more pair wants it.
    fn make_room(&mut self) -> Result<(), AllocError>
        ensures { (q : ℕ × ℕ) → placed_of self.new q ≡ placed_of self.old q }
    {
        if self.slots.len() / 4 * 3 <= self.count && self.slots.len() < MOST {
            *self = self.grown()?;
        }
        Ok(())
    }

    /// The same places in a larger table.
    fn grown(&self) -> Result<PairTable, AllocError>
        ensures { IfOk result (λ t. (q : ℕ × ℕ) → placed_of t q ≡ placed_of self.now q) }
    {
        let size = self.count.saturating_mul(2).clamp(LEAST, MOST);
        let mut table = self.emptied(size)?;
        for at in 0..self.slots.len() {
            table.take_over(&self.slots, at)?;
        }
        table.count = self.count;
        Ok(table)
    }

    /// A table of so many free slots, and the pairs that stand in the ordered map.
    fn emptied(&self, size: usize) -> Result<PairTable, AllocError>
        requires { size ≤ 262144 }
        ensures { IfOk result (λ t. (q : ℕ × ℕ) → placed_of t q ≡ mapped_at self.now.1 q) }
    {
        let slots = free_slots(*self.slots.allocator(), size)?;
        Ok(PairTable {
            slots,
            others: self.others.clone()?,
            count: 0,
        })
    }

    /// Notes the pair that a slot of another table holds, if it is the pair's own.
    fn take_over(
        &mut self,
        slots: &[Option<((u64, u64), Place)>],
        at: usize,
    ) -> Result<(), AllocError>
        requires small { length slots.now ≤ 262144 }
        ensures ok { OnOk result (spec.TakesOver slots.now at self.old self.new) }
    {
        match slots.get(at) {
            Some(Some((key, place))) if slot(slots.len(), *key) == at => self.put(*key, *place),
            _ => Ok(()),
        }
    }

    /// Forgets the place of a pair.
    pub(crate) fn remove(&mut self, key: (u64, u64)) -> Option<Place>
        ensures value { result ≡ placed_of self.old key }
        ensures updates { (q : ℕ × ℕ) → placed_of self.new q ≡ cond (pair_eq key q) None (placed_of self.old q) }
    {
        self.count = self.count.saturating_sub(1);
        take_from(&mut self.slots, &mut self.others, key)
    }

    /// The same places.
    pub(crate) fn copy(&self) -> Result<PairTable, AllocError>
        ensures { IfOk result (λ t. (q : ℕ × ℕ) → placed_of t q ≡ placed_of self.now q) }
    {
        Ok(PairTable {
            slots: Vec::from_slice(*self.slots.allocator(), &self.slots)?,
            others: self.others.clone()?,
            count: self.count,
        })
    }
}

/// Notes the place of two numbers, in their slot if that holds no other two.
fn put_into(
    slots: &mut [Option<((u64, u64), Place)>],
    others: &mut BTreeMap<(u64, u64), Place>,
    key: (u64, u64),
    place: Place,
) -> Result<(), AllocError>
    requires small { length slots.old ≤ 262144 }
    ensures ok { OnOk result ((q : ℕ × ℕ) → placed_of (slots.new, others.new.entries) q ≡ cond (pair_eq key q) (Some place) (placed_of (slots.old, others.old.entries) q)) }
    ensures err { OnErr result ((q : ℕ × ℕ) → placed_of (slots.new, others.new.entries) q ≡ placed_of (slots.old, others.old.entries) q) }
    ensures count { length slots.new ≡ length slots.old }
{
    if hold(slots, key, place) {
        return Ok(());
    }
    others.insert(key, place)?;
    Ok(())
}

/// Forgets the place of two numbers, and tells it.
fn take_from(
    slots: &mut [Option<((u64, u64), Place)>],
    others: &mut BTreeMap<(u64, u64), Place>,
    key: (u64, u64),
) -> Option<Place>
    requires small { length slots.old ≤ 262144 }
    ensures value { result ≡ placed_of (slots.old, others.old.entries) key }
    ensures updates { (q : ℕ × ℕ) → placed_of (slots.new, others.new.entries) q ≡ cond (pair_eq key q) None (placed_of (slots.old, others.old.entries) q) }
    ensures count { length slots.new ≡ length slots.old }
{
    let other = others.remove(&key);
    match let_go(slots, key) {
        Some(place) => Some(place),
        None => other,
    }
}

/// So many slots that hold nothing.
fn free_slots(alloc: Global, size: usize) -> Result<Vec<Option<((u64, u64), Place)>>, AllocError>
    ensures none { IfOk result (λ v. (q : ℕ × ℕ) → held_at v.items q ≡ None) }
    ensures count { IfOk result (λ v. length v.items ≡ size) }
{
    (0..size).map(|_| None).collect(alloc)
}

/// What the slot of two numbers tells of them.
fn held(slots: &[Option<((u64, u64), Place)>], key: (u64, u64)) -> Option<Place>
    requires small { length slots.now ≤ 262144 }
    ensures { result ≡ held_at slots.now key }
{
    match slots.get(slot(slots.len(), key)) {
        Some(Some((other, place))) if is_same(key, *other) => Some(*place),
        _ => None,
    }
}

/// Writes the place of two numbers into their slot, if it holds no other two, and says whether it did.
#[tactic(auto, using(crate::proofs::PairLemmas::held_put))]
fn hold(slots: &mut [Option<((u64, u64), Place)>], key: (u64, u64), place: Place) -> bool
    requires small { length slots.old ≤ 262144 }
    ensures held { result ≡ true → (q : ℕ × ℕ) → held_at slots.new q ≡ cond (pair_eq key q) (Some place) (held_at slots.old q) }
    ensures other { result ≡ false → held_at slots.old key ≡ None }
    ensures same { result ≡ false → slots.new ≡ slots.old }
    ensures count { length slots.new ≡ length slots.old }
{
    let at = slot(slots.len(), key);
    if at >= slots.len() || !is_free_for(&slots[at], key) {
        return false;
    }
    slots[at] = Some((key, place));
    true
}

/// Whether a slot holds no other two numbers.
fn is_free_for(held: &Option<((u64, u64), Place)>, key: (u64, u64)) -> bool
    ensures { result ≡ spec.is_free_for key held.now }
{
    match held {
        Some((other, _)) => is_same(key, *other),
        None => true,
    }
}

/// Empties the slot of two numbers, if it holds them, and tells what it held.
#[tactic(auto, using(crate::proofs::PairLemmas::held_gone))]
fn let_go(slots: &mut [Option<((u64, u64), Place)>], key: (u64, u64)) -> Option<Place>
    requires small { length slots.old ≤ 262144 }
    ensures value { result ≡ held_at slots.old key }
    ensures updates { (q : ℕ × ℕ) → held_at slots.new q ≡ cond (pair_eq key q) None (held_at slots.old q) }
    ensures count { length slots.new ≡ length slots.old }
{
    let place = held(slots, key)?;
    let at = slot(slots.len(), key);
    if at < slots.len() {
        slots[at] = None;
    }
    Some(place)
}

fn is_same(key: (u64, u64), other: (u64, u64)) -> bool
    ensures { result ≡ pair_eq key other }
{
    key.0 == other.0 && key.1 == other.1
}

/// The slot of two numbers. Hashes are spread over the slots by their product with their number, of which the upper half
/// counts.
fn slot(size: usize, key: (u64, u64)) -> usize
    requires { size ≤ 262144 }
    ensures { result ≡ pair_slot size key }
{
    (hash(key) * size as u64 / 4_294_967_296) as usize
}

/// A hash of two numbers of 32 bits, by products with the golden ratio (Knuth 1973).
fn hash(key: (u64, u64)) -> u64
    ensures hash { result ≡ spec.pair_hash key }
    ensures small { result < 4294967296 }
{
    let first = key.0 % 4_294_967_296 * 2_654_435_769 % 4_294_967_296;
    (first + key.1 % 4_294_967_296) % 4_294_967_296 * 2_654_435_769 % 4_294_967_296
}
