//! Rule numbers by event, all in one list.
ghost use Rattle.std.specs.Prelude.{◌≡◌, ℕ, ◌+◌, ◌<◌, ◌≤◌, ◌++◌, All, IfOk, List, OnOk, Option, None, Some, get_or, length, replicate, slice_range, slice_set};
ghost use Rattle.rule_system.specs.Bounds.{most_rules};
ghost use Rattle.rule_system.specs.Rows.{AreChains, AreParts, IsChain, places_from};

use std::alloc::{AllocError, Global};

/// For each event some numbers, all in one list: from where the event's part begins to where the next one's does.
#[derive(Drop)]
pub struct Rows {
    pub begins: Vec<usize>,
    pub numbers: Vec<u32>,
}

impl Rows {
    /// For each event the places in a list of events that hold it, in rising order. Linear.
    pub fn of(alloc: Global, events: u32, ends: &[u32]) -> Result<Rows, AllocError>
        requires ends { All (λ e. e < events) ends.now }
        requires room { length ends.now ≤ most_rules }
        ensures { IfOk result (λ rows. AreParts (places_from ends.now 0) events rows.begins.items rows.numbers.items) }
    {
        let mut firsts = vec![in alloc; None; events as usize]?;
        let mut nexts = vec![in alloc; None; ends.len()]?;
        link_all(events, ends, &mut firsts, &mut nexts);
        written(alloc, events, ends, &firsts, &nexts)
    }

    /// The numbers of an event.
    pub fn at(&self, event: u32) -> &[u32]
        requires event { event + 1 < length self.now.begins.items }
        requires rising { get_or self.now.begins.items event 0 ≤ get_or self.now.begins.items (event + 1) 0 }
        requires inside { get_or self.now.begins.items (event + 1) 0 ≤ length self.now.numbers.items }
        ensures { result.now ≡ slice_range self.now.numbers.items (get_or self.now.begins.items event 0) (get_or self.now.begins.items (event + 1) 0) }
    {
        let begin = self.begins[event as usize];
        let end = self.begins[event as usize + 1];
        &self.numbers[begin..end]
    }
}

/// Links the places of each event: from its first place, and from each one to the next.
fn link_all(events: u32, ends: &[u32], firsts: &mut [Option<u32>], nexts: &mut [Option<u32>])
    requires ends { All (λ e. e < events) ends.now }
    requires room { length ends.now ≤ most_rules }
    requires firsts { firsts.old ≡ replicate events None }
    requires nexts { nexts.old ≡ replicate (length ends.now) None }
    ensures { AreChains ends.now 0 events firsts.new nexts.new }
{
    let count = ends.len();
    'places: for back in 0..count {
        let place = count - 1 - back;
        link(place, ends[place], firsts, nexts);
    }
}

/// Puts a place before the others of its event.
fn link(place: usize, end: u32, firsts: &mut [Option<u32>], nexts: &mut [Option<u32>])
    requires place { place < length nexts.old }
    requires end { end < length firsts.old }
    requires room { length nexts.old ≤ most_rules }
    ensures firsts { firsts.new ≡ slice_set firsts.old end (Some place) }
    ensures nexts { nexts.new ≡ slice_set nexts.old place (get_or firsts.old end None) }
{
    nexts[place] = firsts[end as usize];
    firsts[end as usize] = Some(place as u32);
}

/// The numbers of each chain, one chain after the other.
fn written(
    alloc: Global,
    events: u32,
    ends: &[u32],
    firsts: &[Option<u32>],
    nexts: &[Option<u32>],
) -> Result<Rows, AllocError>
    requires { AreChains ends.now 0 events firsts.now nexts.now }
    ensures { IfOk result (λ rows. AreParts (places_from ends.now 0) events rows.begins.items rows.numbers.items) }
{
    let mut begins = Vec::with_capacity(alloc, firsts.len())?;
    let mut numbers = Vec::with_capacity(alloc, ends.len())?;
    begins.push(0)?;
    'events: for event in 0..events {
        append(firsts[event as usize], nexts, &mut numbers)?;
        begins.push(numbers.len())?;
    }
    Ok(Rows { begins, numbers })
}

/// Appends the numbers of a chain.
fn append(
    start: Option<u32>,
    nexts: &[Option<u32>],
    numbers: &mut Vec<u32>,
) -> Result<(), AllocError>
    ensures { OnOk result ((row : List ℕ) → IsChain nexts.now 0 start row → length row ≤ length nexts.now → numbers.new.items ≡ numbers.old.items ++ row) }
{
    let mut at = start;
    'links: for _ in 0..nexts.len() {
        let Some(place) = at else {
            break;
        };
        numbers.push(place)?;
        at = next_of(nexts, place);
    }
    Ok(())
}

/// The place that follows in a chain.
fn next_of(nexts: &[Option<u32>], place: u32) -> Option<u32>
    ensures { result ≡ get_or nexts.now place None }
{
    if place as usize >= nexts.len() {
        return None;
    }
    nexts[place as usize]
}
