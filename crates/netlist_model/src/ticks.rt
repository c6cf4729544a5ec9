// The ticks of a netlist, found by their pairs of events.
ghost use Rattle.std.specs.Prelude.{◌≡◌, ◌++◌, ◌∷◌, [], ◌<◌, ◌≤◌, false, true, ◌+◌, length, map, not, filter, slice_get, Some, is_some, IfOk, IfSome, OnOk, OnErr};
ghost use Rattle.std.specs.List.{flat_map, list_any};
ghost use Rattle.std.specs.Vec.{vec_capacity, vec_len};
ghost use Rattle.netlist_model.specs.Blocks.{Grown};
ghost use Rattle.netlist_model.specs.Deletions as deletions;
ghost use Rattle.netlist_model.specs.Circuit.{is_between, tick_of};
ghost use Rattle.netlist_model.specs.Expansion.{offset_of};
ghost use Rattle.netlist_model.specs.Uses.{Tells, ends_of};

use crate::pairs::{Pairs, Place};
use crate::parts::{Tick, event_after};
use crate::uses::Uses;
use std::alloc::{AllocError, Global};
use std::marker::Model;

/// How many ticks a block takes before the next one is begun.
const BLOCK: usize = 1024;

/// Ticks in order. They lie in blocks, so that one is taken away without a move of all that follow it.
/// A pair of events finds the block of its tick, and the tick's count. How many events of ticks are of each net is counted.
#[derive(Drop)]
pub(crate) struct Ticks {
    blocks: Vec<Vec<Tick>>,
    pairs: Pairs,
    count: usize,
    uses: Uses,
}

impl Model for Ticks {
    ghost use Rattle.std.specs.Prelude.{List, length, map, option_map, ◌≡◌};
    ghost use Rattle.std.specs.List.{flat_map};
    ghost use Rattle.netlist_model.specs.declared.parts.Tick.{Tick};
    ghost use Rattle.netlist_model.specs.Blocks.{IsIndexed, TellsCounts};
    ghost use Rattle.netlist_model.specs.Keyed.{told_of};
    ghost use Rattle.netlist_model.specs.Uses.{Tells, ends_of};

    ghost Value = { List Tick };

    ghost view = { λ t. flat_map (λ b. b) (map (λ b. b.items) t.blocks.items) };

    ghost invariant = { λ t. (t.count ≡ length (flat_map (λ b. b) (map (λ b. b.items) t.blocks.items)))
        × IsIndexed (map (λ b. b.items) t.blocks.items) (λ s e. option_map (λ p. p.block) (told_of t.pairs s e))
        × TellsCounts (flat_map (λ b. b) (map (λ b. b.items) t.blocks.items)) (λ s e. option_map (λ p. p.count) (told_of t.pairs s e))
        × Tells t.uses (ends_of (flat_map (λ b. b) (map (λ b. b.items) t.blocks.items))) };
}

impl Ticks {
    pub(crate) fn empty(alloc: Global) -> Ticks
        ensures { result ≡ [] }
    {
        Ticks {
            blocks: Vec::new(alloc),
            pairs: Pairs::empty(alloc),
            count: 0,
            uses: Uses::empty(alloc),
        }
    }

    pub(crate) fn count(&self) -> usize
        ensures { result ≡ length self.now }
    {
        self.count
    }

    /// The ticks, one block after the other.
    pub(crate) fn blocks(&self) -> &[Vec<Tick>]
        ensures ticks { flat_map (λ b. b) (map (λ b. b.items) result.now) ≡ self.now }
        ensures small { length self.now ≤ usize.MAX }
    {
        let _count = self.count;
        &self.blocks
    }

    /// Whether a pair of events has a tick.
    pub(crate) fn has(&self, source: u32, target: u32) -> bool
        ensures { result ≡ is_some (tick_of self.now source target) }
    {
        self.pairs.find(source, target).is_some()
    }

    /// The count of the tick of a pair of events, or 0 where they have none.
    pub(crate) fn offset(&self, source: u32, target: u32) -> u32
        ensures { result ≡ offset_of self.now source target }
    {
        match self.pairs.find(source, target) {
            Some(place) => place.count,
            None => 0,
        }
    }

    /// The tick at a place.
    pub(crate) fn tick(&self, at: usize) -> Tick
        requires { at < length self.now }
        ensures { slice_get self.now at ≡ Some result }
    {
        tick_at(&self.blocks, at).unwrap()
    }

    /// Puts the first tick of a pair of events last.
    pub(crate) fn push(&mut self, tick: Tick) -> Result<(), AllocError>
        requires { is_some (tick_of self.old tick.source tick.target) ≡ false }
        ensures ok { OnOk result (self.new ≡ self.old ++ tick ∷ []) }
        ensures err { OnErr result (self.new ≡ self.old) }
    {
        let Some(count) = self.count.checked_add(1) else {
            return Err(AllocError);
        };
        let block = make_room(&mut self.blocks)?;
        let place = Place {
            block,
            count: tick.count,
        };
        self.pairs.insert(tick.source, tick.target, place)?;
        let last = &mut self.blocks[block];
        let _ = last.push(tick);
        self.count = count;
        self.uses.raise(tick.source / 2);
        self.uses.raise(tick.target / 2);
        Ok(())
    }

    /// Takes the tick of a pair of events away. The others keep their order.
    pub(crate) fn remove(&mut self, source: u32, target: u32)
        ensures { self.new ≡ filter (λ t. not (is_between source target t)) self.old }
    {
        let Some(place) = self.pairs.remove(source, target) else {
            return;
        };
        let at = place.block;
        let gone = take_from(&mut self.blocks[at], source, target);
        self.count -= gone;
        self.uses.lower(source / 2, gone);
        self.uses.lower(target / 2, gone);
    }

    /// Whether an event of a tick is of the net. Where it is not known how many are, the ticks are gone over.
    pub(crate) fn is_ticked(&self, net: u32) -> bool
        ensures { result ≡ list_any (deletions.is_ticked net) self.now }
    {
        match self.uses.count(net) {
            Some(count) => count > 0,
            None => any_ticked(net, &self.blocks),
        }
    }

    /// Moves up the events, once a net that no tick is of is away. The ticks are gone over only where one may be of a
    /// later net.
    pub(crate) fn leave(&mut self, gone: u32)
        requires { list_any (deletions.is_ticked gone) self.old ≡ false }
        ensures { self.new ≡ map (deletions.tick_after gone) self.old }
    {
        self.pairs.leave(gone);
        move_up(&mut self.blocks, &self.uses, gone);
        self.uses.leave(gone);
    }

    /// The same ticks in the same order.
    pub(crate) fn copy(&self) -> Result<Ticks, AllocError>
        ensures { IfOk result (λ t. t ≡ self.now) }
    {
        Ok(Ticks {
            blocks: copies(*self.blocks.allocator(), &self.blocks)?,
            pairs: self.pairs.copy()?,
            count: self.count,
            uses: self.uses.copy()?,
        })
    }
}

/// Whether an event of the tick is of the net.
fn is_ticked(net: u32, tick: &Tick) -> bool
    ensures { result ≡ deletions.is_ticked net tick.now }
{
    net == tick.source / 2 || net == tick.target / 2
}

fn has_ticked(net: u32, ticks: &[Tick]) -> bool
    ensures { result ≡ list_any (deletions.is_ticked net) ticks.now }
{
    ticks.iter().any(|tick| is_ticked(net, tick))
}

/// Whether an event of a tick of the blocks is of the net.
fn any_ticked(net: u32, blocks: &[Vec<Tick>]) -> bool
    ensures { result ≡ list_any (deletions.is_ticked net) (flat_map (λ b. b) (map (λ b. b.items) blocks.now)) }
{
    for block in blocks {
        if has_ticked(net, block) {
            return true;
        }
    }
    false
}

/// A tick, once a net is away.
fn tick_after(gone: u32, tick: Tick) -> Tick
    ensures { result ≡ deletions.tick_after gone tick }
{
    Tick {
        source: event_after(gone, tick.source),
        target: event_after(gone, tick.target),
        count: tick.count,
    }
}

fn leave_ticks(ticks: &mut [Tick], gone: u32)
    ensures { ticks.new ≡ map (deletions.tick_after gone) ticks.old }
{
    for tick in ticks.iter_mut() {
        *tick = tick_after(gone, *tick);
    }
}

/// Moves up the events of a block.
fn leave_block(block: &mut Vec<Tick>, gone: u32)
    ensures { block.new.items ≡ map (deletions.tick_after gone) block.old.items }
{
    leave_ticks(block, gone);
}

/// Moves up the events. Where no tick is of a net behind the one that is away, nothing is to be done.
fn move_up(blocks: &mut Vec<Vec<Tick>>, uses: &Uses, gone: u32)
    requires tells { Tells uses.now (ends_of (flat_map (λ b. b) (map (λ b. b.items) blocks.old.items))) }
    requires free { list_any (deletions.is_ticked gone) (flat_map (λ b. b) (map (λ b. b.items) blocks.old.items)) ≡ false }
    ensures { map (λ b. b.items) blocks.new.items ≡ map (map (deletions.tick_after gone)) (map (λ b. b.items) blocks.old.items) }
{
    if uses.is_last(gone) {
        return;
    }
    leave_blocks(blocks, gone);
}

fn leave_blocks(blocks: &mut [Vec<Tick>], gone: u32)
    ensures { map (λ b. b.items) blocks.new ≡ map (map (deletions.tick_after gone)) (map (λ b. b.items) blocks.old) }
{
    for block in blocks.iter_mut() {
        leave_block(block, gone);
    }
}

fn copies(alloc: Global, blocks: &[Vec<Tick>]) -> Result<Vec<Vec<Tick>>, AllocError>
    ensures { IfOk result (λ v. map (λ b. b.items) v.items ≡ map (λ b. b.items) blocks.now) }
{
    let mut copies = Vec::with_capacity(alloc, blocks.len())?;
    for block in blocks {
        copies.push(Vec::from_slice(alloc, block)?)?;
    }
    Ok(copies)
}

/// Whether the tick is the one of a pair of events.
fn is_of(tick: &Tick, source: u32, target: u32) -> bool
    ensures { result ≡ is_between source target tick.now }
{
    source == tick.source && target == tick.target
}

/// Takes the ticks of a pair of events out of a block, and says how many they were.
fn take_from(block: &mut Vec<Tick>, source: u32, target: u32) -> usize
    ensures kept { block.new.items ≡ filter (λ t. not (is_between source target t)) block.old.items }
    ensures gone { result + length block.new.items ≡ length block.old.items }
{
    let before = block.len();
    block.retain(|tick| !is_of(tick, source, target));
    before - block.len()
}

/// Makes room for a tick at the end of the last block, or of a new one where that is full, and says which block it is.
fn make_room(blocks: &mut Vec<Vec<Tick>>) -> Result<usize, AllocError>
    ensures grown { Grown (map (λ b. b.items) blocks.old.items) (map (λ b. b.items) blocks.new.items) }
    ensures last { IfOk result (λ k. k + 1 ≡ length blocks.new.items) }
    ensures room { IfOk result (λ k. IfSome (slice_get blocks.new.items k) (λ b. vec_len b < vec_capacity b)) }
{
    if !has_room(blocks) {
        let block = Vec::with_capacity(*blocks.allocator(), BLOCK)?;
        blocks.push(block)?;
    }
    let last = blocks.len() - 1;
    blocks[last].reserve(1)?;
    Ok(last)
}

/// Whether the last block takes one more tick.
fn has_room(blocks: &[Vec<Tick>]) -> bool
    ensures { result ≡ true → 0 < length blocks.now }
{
    match blocks.last() {
        Some(block) => block.len() < BLOCK,
        None => false,
    }
}

/// The tick at a place of the blocks, one after the other.
fn tick_at(blocks: &[Vec<Tick>], at: usize) -> Option<Tick>
    ensures { result ≡ slice_get (flat_map (λ b. b) (map (λ b. b.items) blocks.now)) at }
{
    let mut left = at;
    for block in blocks {
        if left < block.len() {
            return Some(block[left]);
        }
        left -= block.len();
    }
    None
}
