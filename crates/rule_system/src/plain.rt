//! Plain slow programs straight from the definitions, for tests to compare faster ones with.
//! They go through all walks of at most so many rules as there are events, so they are for small
//! systems alone: their time is exponential in the number of events.
ghost use Rattle.std.specs.Prelude.{◌≡◌, ◌↔◌, ℕ, ◌<◌, ◌≤◌, ◌+ℤ◌, ◌≤ℤ◌, pos, List, IsTrue, IfOk, IfSome, IfNone, Some, length};
ghost use Rattle.std.specs.Int.{IsGcd};
ghost use Rattle.cyc_num.specs.Ratio.{IsSmallRatio};
ghost use Rattle.cyc_num.specs.Within.{LiesWithin};
ghost use Rattle.rule_system.specs.FirstCycle.{IsFirstCycle, kept_by};
ghost use Rattle.rule_system.specs.Bounds.{most_events, most_rules, most_weight};
ghost use Rattle.rule_system.specs.Plain.{IsFirstFrom, IsFirstWalk, IsKeptWalk, NoneFrom, IsGreatest, IsGreatestClosing, IsWithin, greater_of, after_rule};
ghost use Rattle.rule_system.specs.Walks.{IsConnected, IsCycle, IsKept, Reaches};
ghost use Rattle.rule_system.specs.Weights.{AreArrivals, HasNoGain, IsArrival, IsPeriod};

use crate::cycles::Cycle;
use crate::measures::weight_of;
use crate::rules::Rule;
use crate::systems::System;
use std::alloc::{AllocError, Global};

/// The first of the cycles of kept rules: for each start and each length in turn the first walk back.
pub fn first_cycle(
    alloc: Global,
    system: &System,
    keep: &[bool],
) -> Result<Option<Cycle>, AllocError>
    requires { length keep.now ≡ length system.now.rules }
    ensures some { IfOk result (λ found. IfSome found (λ cycle. IsFirstCycle system.now.rules (kept_by keep.now) cycle)) }
    ensures none { IfOk result (λ found. IfNone found ((cycle : List ℕ) → IsCycle system.now.rules cycle → IsKept (kept_by keep.now) cycle → ⊥)) }
{
    'starts: for start in 0..system.events() {
        if let Some(cycle) = first_from(alloc, system, keep, start)? {
            return Ok(Some(Cycle::of(cycle)));
        }
    }
    Ok(None)
}

/// The first of the cycles of kept rules that start at an event.
fn first_from(
    alloc: Global,
    system: &System,
    keep: &[bool],
    start: u32,
) -> Result<Option<Vec<u32>>, AllocError>
    requires { length keep.now ≡ length system.now.rules }
    ensures some { IfOk result (λ found. IfSome found (λ cycle. IsFirstFrom system.now.rules (kept_by keep.now) start cycle.items)) }
    ensures none { IfOk result (λ found. IfNone found (NoneFrom system.now.rules (kept_by keep.now) start)) }
{
    let rules = system.rules();
    'counts: for fewer in 0..system.events() {
        if let Some(cycle) = first_walk(alloc, rules, keep, start, start, fewer + 1)? {
            return Ok(Some(cycle));
        }
    }
    Ok(None)
}

/// The first in the order of lists of the walks of so many kept rules between two events.
fn first_walk(
    alloc: Global,
    rules: &[Rule],
    keep: &[bool],
    from: u32,
    to: u32,
    count: u32,
) -> Result<Option<Vec<u32>>, AllocError>
    requires rules { length rules.now ≤ most_rules }
    requires keep { length keep.now ≡ length rules.now }
    ensures some { IfOk result (λ found. IfSome found (λ walk. IsFirstWalk rules.now (kept_by keep.now) count from walk.items to)) }
    ensures none { IfOk result (λ found. IfNone found ((walk : List ℕ) → IsKeptWalk rules.now (kept_by keep.now) count from walk to → ⊥)) }
{
    if count == 0 {
        return Ok(if from == to {
            Some(Vec::new(alloc))
        } else {
            None
        });
    }
    'heads: for (number, rule) in rules.iter().enumerate() {
        if rule.source == from && keep[number] {
            if let Some(mut walk) = first_walk(alloc, rules, keep, rule.target, to, count - 1)? {
                walk.insert(0, number as u32)?;
                return Ok(Some(walk));
            }
        }
    }
    Ok(None)
}

/// The arrivals of all events from a root at a period of top/bottom picoseconds, scaled by the bottom:
/// for each event the greatest weight of a walk.
pub fn arrivals(
    alloc: Global,
    top: u64,
    bottom: u64,
    system: &System,
    root: u32,
) -> Result<Vec<i64>, AllocError>
    requires ratio { IsSmallRatio top bottom }
    requires root { root < system.now.events }
    requires connected { IsConnected system.now.events system.now.rules root }
    requires no_gain { HasNoGain top bottom system.now.rules }
    ensures { IfOk result (λ times. AreArrivals top bottom system.now.events system.now.rules root times.items) }
{
    let mut times = Vec::new(alloc);
    'events: for event in 0..system.events() {
        let time = arrival(top, bottom, system, root, event);
        times.push(time)?;
    }
    Ok(times)
}

/// The arrival of an event that a walk from the root reaches.
fn arrival(top: u64, bottom: u64, system: &System, root: u32, event: u32) -> i64
    requires ratio { IsSmallRatio top bottom }
    requires root { root < system.now.events }
    requires reached { Reaches system.now.rules root event }
    requires no_gain { HasNoGain top bottom system.now.rules }
    ensures { IsArrival top bottom system.now.rules root event result }
{
    match greatest_weight(top, bottom, system, root, event, system.events()) {
        Some(time) => time,
        None => 0,
    }
}

/// Whether a ratio in lowest terms is the period: whether the greatest weight of the cycles is 0.
/// Tries for each rule the walks from its target back to its source.
pub fn is_period(top: u64, bottom: u64, system: &System) -> bool
    requires ratio { IsSmallRatio top bottom }
    requires positive { 1 ≤ bottom }
    requires lowest { IsGcd top bottom 1 }
    ensures { IsTrue result ↔ IsPeriod system.now.rules top bottom }
{
    let mut best = None;
    'rules: for number in 0..system.rules().len() {
        let closing = closing_weight(top, bottom, system, number);
        best = greater(best, closing);
    }
    is_even(best)
}

/// Whether the weight is 0.
fn is_even(best: Option<i64>) -> bool
    ensures { IsTrue result ↔ (best ≡ Some (pos 0)) }
{
    match best {
        Some(weight) => weight == 0,
        None => false,
    }
}

/// The greatest weight of a cycle that begins with a rule and has at most as many more rules as there are events.
fn closing_weight(top: u64, bottom: u64, system: &System, number: usize) -> Option<i64>
    requires ratio { IsSmallRatio top bottom }
    requires number { number < length system.now.rules }
    ensures { IsGreatestClosing top bottom system.now.rules system.now.events number result }
{
    let rule = system.rules()[number];
    let left = system.events();
    let rest = greatest_weight(top, bottom, system, rule.target, rule.source, left);
    let first = weight_of(rule, top, bottom);
    after(first, rest)
}

/// The greatest weight of a walk of at most so many rules between two events.
fn greatest_weight(
    top: u64,
    bottom: u64,
    system: &System,
    from: u32,
    to: u32,
    left: u32,
) -> Option<i64>
    requires ratio { IsSmallRatio top bottom }
    requires left { left ≤ most_events }
    ensures greatest { IsGreatest top bottom system.now.rules left from to result }
    ensures within { IsWithin left result }
{
    let mut best = if from == to { Some(0) } else { None };
    if left == 0 {
        return best;
    }
    'heads: for rule in system.rules() {
        if rule.source == from {
            let rest = greatest_weight(top, bottom, system, rule.target, to, left - 1);
            best = greater(best, after(weight_of(*rule, top, bottom), rest));
        }
    }
    best
}

/// The greater of two weights, where none is less than any.
fn greater(a: Option<i64>, b: Option<i64>) -> Option<i64>
    ensures { result ≡ greater_of a b }
{
    match (a, b) {
        (Some(x), Some(y)) => Some(x.max(y)),
        (Some(x), None) => Some(x),
        (None, y) => y,
    }
}

/// The weight with that of a rule before it.
fn after(first: i64, rest: Option<i64>) -> Option<i64>
    requires first { LiesWithin most_weight first }
    requires rest { IsWithin most_events rest }
    ensures { result ≡ after_rule first rest }
{
    match rest {
        Some(weight) => Some(first + weight),
        None => None,
    }
}
