//! The first of the shortest walks, one rule after the other.
ghost use Rattle.std.specs.Prelude.{◌≡◌, ◌<◌, ℕ, IfOk, IsTrue, length, IfSome, IfNone, ◌↔◌};
ghost use Rattle.first_cycle.specs.Levels.{AreLevels, IsLeastWalk, IsNextRule, LeadsNearer, level_of};
ghost use Rattle.rule_system.specs.Walks.{EndsBelow};

use rule_system::{Rule, System};
use std::alloc::{AllocError, Global};

/// The first in the order of lists of the shortest kept walks from an event to the end. Linear in events and rules.
pub fn least_walk(
    alloc: Global,
    system: &System,
    keep: &[bool],
    levels: &[u32],
    from: u32,
    end: u32,
) -> Result<Vec<u32>, AllocError>
    requires keep { length keep.now ≡ length system.now.rules }
    requires levels { AreLevels system.now.events system.now.rules keep.now end levels.now }
    requires from { from < system.now.events }
    requires reached { level_of levels.now from < system.now.events }
    ensures { IfOk result (λ walk. IsLeastWalk system.now.rules keep.now from (level_of levels.now from) walk.items end) }
{
    let rules = system.rules();
    let mut walk = Vec::new(alloc);
    let mut at = from;
    'steps: while levels[at as usize] > 0 {
        let number = next_rule(system, keep, levels, at).unwrap();
        walk.push(number)?;
        at = rules[number as usize].target;
    }
    Ok(walk)
}

/// The first kept rule from an event that leads to a level lower by 1.
fn next_rule(system: &System, keep: &[bool], levels: &[u32], at: u32) -> Option<u32>
    requires keep { length keep.now ≡ length system.now.rules }
    requires count { length levels.now ≡ system.now.events }
    requires at { at < system.now.events }
    ensures some { IfSome result (λ number. IsNextRule system.now.rules keep.now levels.now at number) }
    ensures none { IfNone result ((number : ℕ) → number < length system.now.rules → LeadsNearer system.now.rules keep.now levels.now at number → ⊥) }
{
    let rules = system.rules();
    'numbers: for number in system.out_of_event(at) {
        if leads_nearer(rules, keep, levels, at, *number as usize) {
            return Some(*number);
        }
    }
    None
}

/// Whether a kept rule leads from the event to a level lower by 1.
fn leads_nearer(rules: &[Rule], keep: &[bool], levels: &[u32], at: u32, number: usize) -> bool
    requires number { number < length rules.now }
    requires keep { length keep.now ≡ length rules.now }
    requires ends { EndsBelow (length levels.now) rules.now }
    requires at { at < length levels.now }
    ensures { IsTrue result ↔ LeadsNearer rules.now keep.now levels.now at number }
{
    let rule = rules[number];
    if rule.source != at {
        return false;
    }
    if !keep[number] {
        return false;
    }
    let here = levels[at as usize];
    here > 0 && levels[rule.target as usize] == here - 1
}
