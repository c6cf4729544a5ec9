// Names in order that are found by name.
ghost use Rattle.std.specs.Prelude.{◌≡◌, ◌≢◌, ◌++◌, ◌∷◌, [], ◌<◌, ℕ, IfNone, IfOk, IfSome, List, None, OnErr, OnOk, Some, length, remove, slice_get};
ghost use Rattle.std.specs.List.{IsDistinct};
ghost use Rattle.std.specs.Map.{keys_of};
ghost use Rattle.std.specs.Str.{bytes_eq};
ghost use Rattle.netlist_model.specs.Circuit.{place_of};
ghost use Rattle.netlist_model.specs.Deletions.{moved_up};
ghost use Rattle.netlist_model.specs.Hints.{hint_of};
ghost use Rattle.netlist_model.specs.Keyed.{HasNoted, IsFound, names_in, number_in};

use crate::hints::Hints;
use indexmap::IndexMap;
use std::alloc::{AllocError, Global};
use std::collections::BTreeMap;
use std::marker::Model;

/// Names in order. Each keeps a number of its own while others come and go: an index map holds the names in
/// order by their numbers. Most names stand where a hash of them leads; where a hash has a name already, an ordered
/// map finds the number of the further ones. So no choice of names makes a look-up slow, and no key changes where a
/// name is taken away.
#[derive(Drop)]
pub(crate) struct Keys {
    names: IndexMap<u64, Vec<u8>>,
    numbers: BTreeMap<Vec<u8>, u64>,
    next: u64,
    hints: Hints,
}

impl Model for Keys {
    ghost use Rattle.std.specs.Prelude.{List, ℕ, map};
    ghost use Rattle.std.specs.BTreeMap.{get_by};
    ghost use Rattle.std.specs.Cmp.Lexicographic.{slice_cmp};
    ghost use Rattle.std.specs.Map.{keys_of};
    ghost use Rattle.std.specs.Ordering.{nat_cmp};
    ghost use Rattle.netlist_model.specs.Hints.{hint_of};
    ghost use Rattle.netlist_model.specs.Keyed.{IsKeyed};

    ghost Value = { List (List ℕ) };

    ghost view = { λ k. map (λ e. e.1.items) k.names.entries };

    ghost invariant = { λ k. IsKeyed (map (λ e. e.1.items) k.names.entries) (keys_of k.names.entries)
        (hint_of k.hints) (λ name. get_by (λ v. slice_cmp nat_cmp name v.items) k.numbers) k.next };
}

impl Keys {
    #[tactic(auto, using(crate::proofs::KeyedLemmas::no_names_differ))]
    pub(crate) fn empty(alloc: Global) -> Keys
        ensures { result ≡ [] }
    {
        Keys {
            names: IndexMap::new(alloc),
            numbers: BTreeMap::new(alloc),
            next: 0,
            hints: Hints::empty(alloc),
        }
    }

    /// No names, and room for so many.
    #[tactic(auto, using(crate::proofs::KeyedLemmas::no_names_differ))]
    fn with_room(alloc: Global, count: usize) -> Result<Keys, AllocError>
        ensures { IfOk result (λ k. k ≡ []) }
    {
        let mut names = IndexMap::new(alloc);
        names.reserve(count)?;
        Ok(Keys {
            names,
            numbers: BTreeMap::new(alloc),
            next: 0,
            hints: Hints::for_names(alloc, count)?,
        })
    }

    pub(crate) fn count(&self) -> usize
        ensures { result ≡ length self.now }
    {
        self.names.len()
    }

    /// The place of a name.
    pub(crate) fn find(&self, name: &[u8]) -> Option<usize>
        ensures place { result ≡ place_of name.now self.now }
        ensures within { IfSome result (λ at. at < length self.now) }
    {
        if let Some(at) = at_hint(&self.hints, &self.names, name) {
            return Some(at);
        }
        match self.numbers.get(name) {
            Some(number) => self.names.get_index_of(number),
            None => None,
        }
    }

    /// The name at a place.
    pub(crate) fn name(&self, at: usize) -> &[u8]
        requires { at < length self.now }
        ensures { slice_get self.now at ≡ Some result.now }
    {
        &self.names[at]
    }

    /// Puts a new name last.
    pub(crate) fn push(&mut self, name: &[u8]) -> Result<(), AllocError>
        requires { place_of name.now self.old ≡ None }
        ensures ok { OnOk result (self.new ≡ self.old ++ name.now ∷ []) }
        ensures err { OnErr result (self.new ≡ self.old) }
    {
        self.make_room()?;
        let number = self.next;
        let Some(next) = number.checked_add(1) else {
            return Err(AllocError);
        };
        let alloc = *self.names.allocator();
        let kept = Vec::from_slice(alloc, name)?;
        let at = self.names.len();
        self.names.reserve(1)?;
        note(alloc, &mut self.hints, &mut self.numbers, name, number, at)?;
        let _ = self.names.insert(number, kept);
        self.next = next;
        Ok(())
    }

    /// Makes a larger table of hints, where one more name wants it.
    fn make_room(&mut self) -> Result<(), AllocError>
        ensures { self.new ≡ self.old }
    {
        if self.hints.is_small(self.count()) {
            let (hints, numbers) = noted(&self.names)?;
            self.hints = hints;
            self.numbers = numbers;
        }
        Ok(())
    }

    /// Takes the name at a place away. The others keep their order.
    pub(crate) fn remove(&mut self, at: usize)
        requires within { at < length self.old }
        requires differ { IsDistinct bytes_eq self.old }
        ensures { self.new ≡ remove self.old at }
    {
        let name = self.names[at].as_slice();
        let _ = self.numbers.remove(name);
        forget(&mut self.hints, name, at, self.names.len());
        let _ = self.names.shift_remove_index(at);
    }

    /// The same names in the same order.
    pub(crate) fn copy(&self) -> Result<Keys, AllocError>
        requires { IsDistinct bytes_eq self.now }
        ensures { IfOk result (λ k. k ≡ self.now) }
    {
        let mut copy = Keys::with_room(*self.names.allocator(), self.count())?;
        for at in 0..self.count() {
            copy.push(self.name(at))?;
        }
        Ok(copy)
    }
}

/// The place that the hash of a name leads to, where the name stands there.
fn at_hint(hints: &Hints, names: &IndexMap<u64, Vec<u8>>, name: &[u8]) -> Option<usize>
    ensures here { IfSome result (λ at. slice_get (names_in names.now.entries) at ≡ Some name.now) }
    ensures missed { IfNone result ((k : ℕ) → hint_of hints.now name.now ≡ Some k → slice_get (names_in names.now.entries) k ≡ Some name.now → ⊥) }
{
    let place = hints.place(name)?;
    if place >= names.len() {
        return None;
    }
    if names[place].as_slice() == name {
        Some(place)
    } else {
        None
    }
}

/// Notes a name with its number and place: its place where its hash leads to none yet, and else its number.
fn note(
    alloc: Global,
    hints: &mut Hints,
    numbers: &mut BTreeMap<Vec<u8>, u64>,
    name: &[u8],
    number: u64,
    place: usize,
) -> Result<(), AllocError>
    ensures ok { OnOk result (HasNoted name.now number place (hint_of hints.old) (number_in numbers.old) (hint_of hints.new) (number_in numbers.new)) }
    ensures kept { (q : List ℕ) (k : ℕ) → hint_of hints.old q ≡ Some k → hint_of hints.new q ≡ Some k }
    ensures err { OnErr result ((q : List ℕ) → number_in numbers.new q ≡ number_in numbers.old q) }
{
    if hints.note(name, place) {
        return Ok(());
    }
    let key = Vec::from_slice(alloc, name)?;
    numbers.insert(key, number)?;
    Ok(())
}

/// The number and the name at a place.
fn entry<'a>(names: &'a IndexMap<u64, Vec<u8>>, at: usize) -> (u64, &'a [u8])
    requires { at < length names.now.entries }
    ensures number { slice_get (keys_of names.now.entries) at ≡ Some result.0 }
    ensures name { slice_get (names_in names.now.entries) at ≡ Some result.1.now }
{
    let (number, name) = names.get_index(at).unwrap();
    (*number, name.as_slice())
}

/// How names are found, noted anew with room for more.
fn noted(names: &IndexMap<u64, Vec<u8>>) -> Result<(Hints, BTreeMap<Vec<u8>, u64>), AllocError>
    requires { IsDistinct bytes_eq (names_in names.now.entries) }
    ensures { IfOk result (λ p. IsFound (names_in names.now.entries) (keys_of names.now.entries) (hint_of p.0) (number_in p.1)) }
{
    let alloc = *names.allocator();
    let mut hints = Hints::for_names(alloc, names.len())?;
    let mut numbers = BTreeMap::new(alloc);
    for at in 0..names.len() {
        let (number, name) = entry(names, at);
        note(alloc, &mut hints, &mut numbers, name, number, at)?;
    }
    Ok((hints, numbers))
}

/// Forgets where a name is, and moves up the places behind it.
fn forget(hints: &mut Hints, name: &[u8], gone: usize, count: usize)
    requires { gone < count }
    ensures { (q : List ℕ) (k : ℕ) → hint_of hints.old q ≡ Some k → k ≢ gone → k < count → hint_of hints.new q ≡ Some (moved_up gone k) }
{
    if gone + 1 == count {
        hints.forget(name, gone);
    } else {
        hints.close_up(gone);
    }
}
