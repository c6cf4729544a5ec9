//! An order of the events along the rules of offset 0, where no cycle of them stands.
ghost use Rattle.std.specs.Prelude.{◌≡◌, ℕ, ◌<◌, ◌≤◌, IfNone, IfOk, IfSome, false, get_or, length, true};
ghost use Rattle.rule_system.specs.Orders.{ArePlaces, AreTried, DeadCycle, HasPlaced, IsForward, IsSettled, IsWaiting, place_of};
ghost use Rattle.rule_system.specs.Rules.{rule_at, source_of, target_of};

use crate::rules::Rule;
use crate::systems::System;
use std::alloc::{AllocError, Global};

/// An order of the events in which each rule of offset 0 goes forward, or none where a cycle of such rules stands.
/// An event takes its place once the sources of all such rules to it have theirs: a depth-first search against the
/// rules (R. E. Tarjan, 1976). Linear in events and rules.
pub fn order(alloc: Global, system: &System) -> Result<Option<Vec<u32>>, AllocError>
    ensures some { IfOk result (λ found. IfSome found (λ order. IsForward system.now.events system.now.rules order.items)) }
    ensures none { IfOk result (λ found. IfNone found (DeadCycle system.now.rules)) }
{
    let events = system.events();
    let mut order = Vec::with_capacity(alloc, events as usize)?;
    let mut places = vec![in alloc; events; events as usize]?;
    let mut tried = vec![in alloc; 0; events as usize]?;
    'events: for event in 0..events {
        if places[event as usize] < events {
            continue;
        }
        if !place(alloc, system, event, &mut order, &mut places, &mut tried)? {
            return Ok(None);
        }
    }
    Ok(Some(order))
}

/// Gives places to an event and to all that it waits for, and answers whether it could: else a cycle stands.
fn place(
    alloc: Global,
    system: &System,
    root: u32,
    order: &mut Vec<u32>,
    places: &mut [u32],
    tried: &mut [usize],
) -> Result<bool, AllocError>
    requires root { root < system.now.events }
    requires left { system.now.events ≤ place_of places.old root }
    requires places { ArePlaces system.now.events system.now.rules order.old.items places.old }
    requires tried { AreTried system.now.events system.now.rules places.old tried.old }
    ensures placed { IfOk result (λ placed. placed ≡ true →
        HasPlaced system.now.events system.now.rules root places.old order.new.items places.new tried.new) }
    ensures cycle { IfOk result (λ placed. placed ≡ false → DeadCycle system.now.rules) }
{
    let rules = system.rules();
    let mut trail: Vec<u32> = Vec::new(alloc);
    let mut event = root;
    'steps: loop {
        if let Some(number) = next_waiting(system, places, tried, event) {
            trail.push(number)?;
            if trail.len() >= system.events() as usize {
                return Ok(false);
            }
            event = rules[number as usize].source;
        } else {
            places[event as usize] = order.len() as u32;
            order.push(event)?;
            let Some(number) = trail.pop() else {
                return Ok(true);
            };
            event = rules[number as usize].target;
        }
    }
}

/// The next rule that holds an event back, if there is one.
fn next_waiting(system: &System, places: &[u32], tried: &mut [usize], event: u32) -> Option<u32>
    requires event { event < system.now.events }
    requires places { length places.now ≡ system.now.events }
    requires tried { AreTried system.now.events system.now.rules places.now tried.old }
    ensures tried { AreTried system.now.events system.now.rules places.now tried.new }
    ensures some { IfSome result (λ number. IsWaiting system.now.events system.now.rules places.now event number) }
    ensures none { IfNone result ((n : ℕ) → n < length system.now.rules → target_of system.now.rules n ≡ event →
        IsSettled system.now.events system.now.rules places.now n) }
{
    let row = system.into_event(event);
    let at = first_waiting(system, places, row, tried[event as usize]);
    tried[event as usize] = at;
    if at < row.len() { Some(row[at]) } else { None }
}

/// The first place of a row, from one on, that holds a rule which holds its target back, or the row's length.
fn first_waiting(system: &System, places: &[u32], row: &[u32], first: usize) -> usize
    requires places { length places.now ≡ system.now.events }
    requires row { (k : ℕ) → k < length row.now → get_or row.now k 0 < length system.now.rules }
    ensures settled { (k : ℕ) → first ≤ k → k < result → k < length row.now →
        IsSettled system.now.events system.now.rules places.now (get_or row.now k 0) }
    ensures dead { result < length row.now → (rule_at system.now.rules (get_or row.now result 0)).offset ≡ 0 }
    ensures left { result < length row.now → system.now.events ≤ place_of places.now (source_of system.now.rules (get_or row.now result 0)) }
{
    let rules = system.rules();
    'numbers: for at in first..row.len() {
        if waits(places, rules[row[at] as usize]) {
            return at;
        }
    }
    row.len()
}

/// Whether a rule has no offset and its source no place.
fn waits(places: &[u32], rule: Rule) -> bool
    requires { rule.source < length places.now }
    ensures yes { result ≡ true → (rule.offset ≡ 0) × (length places.now ≤ place_of places.now rule.source) }
    ensures no { result ≡ false → rule.offset ≡ 0 → place_of places.now rule.source < length places.now }
{
    rule.offset == 0 && places[rule.source as usize] as usize >= places.len()
}
