//! The first cycle of the kept rules.
ghost use Rattle.std.specs.Prelude.{◌≡◌, ◌<◌, ◌≤◌, ℕ, IfOk, IsTrue, Bool, true, false, length, sum, ◌+◌, nat_lt, IfSome, IfNone, ◌↔◌, List};
ghost use Rattle.rule_system.specs.Bounds.{most_events};
ghost use Rattle.rule_system.specs.Plain.{IsFirstFrom};
ghost use Rattle.first_cycle.specs.Levels.{IsFirstLeast, level_through};
ghost use Rattle.first_cycle.specs.Numbers.{AreUnraised};
ghost use Rattle.rule_system.specs.FirstCycle.{IsFirstCycle, start_of, kept_by};
ghost use Rattle.rule_system.specs.Walks.{EndsBelow, IsCycle, IsKept};

use crate::levels::levels_to;
use crate::numbers::{stays_on_number, unraised_numbers};
use crate::steps::least_walk;
use rule_system::{Cycle, Rule, System};
use std::alloc::{AllocError, Global};

/// The first of the cycles of kept rules: that of the least starting event, of these the shortest, and of these the
/// first in the order of lists of rule numbers. None where the kept rules have no cycle.
///
/// `keep` has a flag for each rule. Numbers that no kept rule raises tell the events that are on no cycle; levels,
/// counted back from the first event left, lead along the first of the shortest walks. Linear in events and rules.
pub fn first_cycle(
    alloc: Global,
    system: &System,
    keep: &[bool],
) -> Result<Option<Cycle>, AllocError>
    requires { length keep.now ≡ length system.now.rules }
    ensures some { IfOk result (λ found. IfSome found (λ cycle. IsFirstCycle system.now.rules (kept_by keep.now) cycle)) }
    ensures none { IfOk result (λ found. IfNone found ((cycle : List ℕ) → IsCycle system.now.rules cycle → IsKept (kept_by keep.now) cycle → ⊥)) }
{
    let numbers = unraised_numbers(alloc, system, keep)?;
    'starts: for start in 0..system.events() {
        if let Some(cycle) = first_from(alloc, system, keep, &numbers, start)? {
            return Ok(Some(Cycle::of(cycle)));
        }
    }
    Ok(None)
}

/// The first of the cycles of kept rules that start at an event.
fn first_from(
    alloc: Global,
    system: &System,
    keep: &[bool],
    numbers: &[u32],
    start: u32,
) -> Result<Option<Vec<u32>>, AllocError>
    requires keep { length keep.now ≡ length system.now.rules }
    requires count { length numbers.now ≡ system.now.events }
    requires unraised { AreUnraised system.now.rules keep.now numbers.now }
    requires start { start < system.now.events }
    ensures some { IfOk result (λ found. IfSome found (λ cycle. IsFirstFrom system.now.rules (kept_by keep.now) start cycle.items)) }
    ensures none { IfOk result (λ found. IfNone found ((cycle : List ℕ) → IsCycle system.now.rules cycle → IsKept (kept_by keep.now) cycle → start_of system.now.rules cycle ≡ start → ⊥)) }
    ensures ends { EndsBelow system.now.events system.now.rules }
{
    let rules = system.rules();
    if !stays_on_number(system, keep, numbers, start) {
        return Ok(None);
    }
    let levels = levels_to(alloc, system, keep, start)?;
    let number = opening_rule(rules, keep, &levels, start);
    if through(rules, keep, &levels, start, number) >= system.events() {
        return Ok(None);
    }
    let mut cycle = least_walk(alloc, system, keep, &levels, rules[number].target, start)?;
    cycle.insert(0, number as u32)?;
    Ok(Some(cycle))
}

/// The first rule through which the fewest kept rules lead from an event to the end.
fn opening_rule(rules: &[Rule], keep: &[bool], levels: &[u32], event: u32) -> usize
    requires some { 0 < length rules.now }
    requires count { length levels.now ≤ most_events }
    requires keep { length keep.now ≡ length rules.now }
    requires ends { EndsBelow (length levels.now) rules.now }
    ensures { IsFirstLeast (level_through rules.now keep.now levels.now event) (length rules.now) result }
{
    let mut best = 0;
    'numbers: for number in 1..rules.len() {
        if through(rules, keep, levels, event, number) < through(rules, keep, levels, event, best) {
            best = number;
        }
    }
    best
}

/// How many rules it takes from an event to the end through a kept rule, or the number of events.
fn through(rules: &[Rule], keep: &[bool], levels: &[u32], event: u32, number: usize) -> u32
    requires number { number < length rules.now }
    requires count { length levels.now ≤ most_events }
    requires keep { length keep.now ≡ length rules.now }
    requires ends { EndsBelow (length levels.now) rules.now }
    ensures { result ≡ level_through rules.now keep.now levels.now event number }
{
    let rule = rules[number];
    if rule.source == event && keep[number] {
        return levels[rule.target as usize];
    }
    levels.len() as u32
}
