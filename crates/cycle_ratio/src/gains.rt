//! The proved search for a cycle of a greater ratio.
ghost use Rattle.std.specs.Prelude.{◌≡◌, ◌<◌, ◌≤◌, ◌==◌, ℕ, Bool, true, false, IfOk, IfSome, IfNone, length, sum};
ghost use Rattle.cyc_num.specs.Ratio.{IsSmallRatio, most_bottom};
ghost use Rattle.rule_system.specs.Bounds.{IsRule, most_rules};
ghost use Rattle.rule_system.specs.Rules.{target_of};
ghost use Rattle.rule_system.specs.Weights.{HasNoGain, Gains};
ghost use Rattle.rule_system.specs.FirstCycle.{kept_by};
ghost use Rattle.cycle_ratio.specs.Cycles.{IsShortCycle};
ghost use Rattle.cycle_ratio.specs.Trees.{AreAtMost, IsTree, adopted, is_chosen, is_parent, is_raising, raised};

use first_cycle::first_cycle;
use rule_system::{Cycle, Rule, System};
use std::alloc::{AllocError, Global};

/// The largest number that a tree of parents can give.
const LARGEST: u64 = 20_000_000_000_000_000;

/// A cycle of a greater ratio than `top / bottom`, or none where there is none.
///
/// Rounds of relaxation from 0 with a parent rule for each event (Bellman 1958, Moore 1959): the numbers settle where no
/// cycle gains, and else the parents close a cycle, which gains. At most as many rounds as events in practice, each in time
/// linear in the rules.
pub fn gain(
    alloc: Global,
    system: &System,
    top: u64,
    bottom: u64,
) -> Result<Option<Cycle>, AllocError>
    requires ratio { IsSmallRatio top bottom }
    ensures cycle { IfOk result (λ found. IfSome found (λ cycle. IsShortCycle system.now.events system.now.rules cycle)) }
    ensures gains { IfOk result (λ found. IfSome found (λ cycle. Gains top bottom system.now.rules cycle)) }
    ensures none { IfOk result (λ found. IfNone found (HasNoGain top bottom system.now.rules)) }
{
    let events = system.events() as usize;
    let mut numbers = vec![in alloc; 0; events]?;
    let mut parents = vec![in alloc; None; events]?;
    climb(alloc, system, top, bottom, &mut numbers, &mut parents)
}

/// Relaxes in rounds until the numbers settle or the parents close a cycle.
fn climb(
    alloc: Global,
    system: &System,
    top: u64,
    bottom: u64,
    numbers: &mut [u64],
    parents: &mut [Option<u32>],
) -> Result<Option<Cycle>, AllocError>
    requires ratio { IsSmallRatio top bottom }
    requires tree { IsTree top bottom system.now.events system.now.rules numbers.old parents.old }
    requires small { AreAtMost 20000000000000000 numbers.old }
    ensures cycle { IfOk result (λ found. IfSome found (λ cycle. IsShortCycle system.now.events system.now.rules cycle)) }
    ensures gains { IfOk result (λ found. IfSome found (λ cycle. Gains top bottom system.now.rules cycle)) }
    ensures none { IfOk result (λ found. IfNone found (HasNoGain top bottom system.now.rules)) }
{
    let mut rounds: u32 = 0;
    'rounds: while round(system, top, bottom, numbers, parents) {
        rounds = rounds.saturating_add(1);
        if let Some(cycle) = look(alloc, system, top, bottom, rounds, numbers, parents)? {
            return Ok(Some(cycle));
        }
    }
    Ok(None)
}

/// A cycle that the parents close. It is looked for after 1, 2, 4, 8 rounds and so on, and where numbers are so large that
/// there must be one.
fn look(
    alloc: Global,
    system: &System,
    top: u64,
    bottom: u64,
    rounds: u32,
    numbers: &[u64],
    parents: &[Option<u32>],
) -> Result<Option<Cycle>, AllocError>
    requires bottom { bottom ≤ most_bottom }
    requires tree { IsTree top bottom system.now.events system.now.rules numbers.now parents.now }
    ensures cycle { IfOk result (λ found. IfSome found (λ cycle. IsShortCycle system.now.events system.now.rules cycle)) }
    ensures gains { IfOk result (λ found. IfSome found (λ cycle. Gains top bottom system.now.rules cycle)) }
    ensures small { IfOk result (λ found. IfNone found (AreAtMost 20000000000000000 numbers.now)) }
{
    if !rounds.is_power_of_two() && are_small(numbers) {
        return Ok(None);
    }
    let chosen = chosen_rules(alloc, system.rules(), parents)?;
    match first_cycle(alloc, system, &chosen)? {
        Some(cycle) => Ok(Some(cycle)),
        None => Ok(None),
    }
}

/// Whether no number is larger than those of trees of parents.
fn are_small(numbers: &[u64]) -> bool
    ensures { result ≡ true → AreAtMost 20000000000000000 numbers.now }
{
    'numbers: for number in numbers {
        if *number > LARGEST {
            return false;
        }
    }
    true
}

/// For each rule whether it is the parent of its target.
fn chosen_rules(
    alloc: Global,
    rules: &[Rule],
    parents: &[Option<u32>],
) -> Result<Vec<bool>, AllocError>
    requires count { length rules.now ≤ most_rules }
    requires targets { (n : ℕ) → n < length rules.now → target_of rules.now n < length parents.now }
    ensures count { IfOk result (λ chosen. length chosen.items ≡ length rules.now) }
    ensures chosen { IfOk result (λ chosen. (n : ℕ) → n < length rules.now → kept_by chosen.items n ≡ is_chosen rules.now parents.now n) }
{
    let mut chosen = Vec::with_capacity(alloc, rules.len())?;
    'rules: for (number, rule) in rules.iter().enumerate() {
        chosen.push(is_parent_rule(parents[rule.target as usize], number as u32))?;
    }
    Ok(chosen)
}

/// Whether the parent is the rule of a number.
fn is_parent_rule(parent: Option<u32>, number: u32) -> bool
    ensures { result ≡ is_parent parent number }
{
    match parent {
        Some(at) => at == number,
        None => false,
    }
}

/// Relaxes each rule once, and answers whether one raised a number.
fn round(
    system: &System,
    top: u64,
    bottom: u64,
    numbers: &mut [u64],
    parents: &mut [Option<u32>],
) -> bool
    requires ratio { IsSmallRatio top bottom }
    requires tree { IsTree top bottom system.now.events system.now.rules numbers.old parents.old }
    requires small { AreAtMost 20000000000000000 numbers.old }
    ensures tree { IsTree top bottom system.now.events system.now.rules numbers.new parents.new }
    ensures rose { result ≡ true → sum numbers.old < sum numbers.new }
    ensures settled { result ≡ false → HasNoGain top bottom system.now.rules }
{
    let mut rose = false;
    'rules: for (number, rule) in system.rules().iter().enumerate() {
        if raise(*rule, number as u32, top, bottom, numbers, parents) {
            rose = true;
        }
    }
    rose
}

/// Raises the number of the rule's target to what the rule leads to, where that is more, and answers whether it is.
fn raise(
    rule: Rule,
    number: u32,
    top: u64,
    bottom: u64,
    numbers: &mut [u64],
    parents: &mut [Option<u32>],
) -> bool
    requires ratio { IsSmallRatio top bottom }
    requires rule { IsRule (length numbers.old) rule }
    requires parents { length parents.old ≡ length numbers.old }
    requires small { AreAtMost 90000000000000000 numbers.old }
    ensures numbers { numbers.new ≡ raised top bottom rule numbers.old }
    ensures parents { parents.new ≡ adopted top bottom rule number numbers.old parents.old }
    ensures result { result ≡ is_raising top bottom rule numbers.old }
{
    let offered = numbers[rule.source as usize] + bottom * rule.delay as u64;
    let cost = top * rule.offset as u64;
    let target = rule.target as usize;
    if numbers[target] + cost >= offered {
        return false;
    }
    numbers[target] = offered - cost;
    parents[target] = Some(number);
    true
}
