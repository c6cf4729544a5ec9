//! Measures of rules and walks: weights, what a rule offers its target, sums along a walk, and whether rule numbers make one.
ghost use Rattle.std.specs.Prelude.{◌≡◌, ◌<◌, ◌≤◌, ◌+ℤ◌, ℕ, All, IfNone, IfSome, true, false, length};
ghost use Rattle.cyc_num.specs.Ratio.{IsSmallRatio, most_bottom, most_top};
ghost use Rattle.cyc_num.specs.Within.{LiesWithin};
ghost use Rattle.rule_system.specs.Bounds.{IsRule, IsSmallRule, most_weight};
ghost use Rattle.rule_system.specs.Rules.{delay_sum, offset_sum};
ghost use Rattle.rule_system.specs.Walks.{IsCycle, IsWalk};
ghost use Rattle.rule_system.specs.Weights.{rule_weight, time_of};

use crate::rules::Rule;

/// The weight that a ratio gives a rule, in picoseconds scaled by the ratio's bottom: bottom times its delay, less top times its offset.
pub fn weight_of(rule: Rule, top: u64, bottom: u64) -> i64
    requires ratio { IsSmallRatio top bottom }
    requires rule { IsSmallRule rule }
    ensures weight { result ≡ rule_weight top bottom rule }
    ensures within { LiesWithin most_weight result }
{
    let gain = bottom * rule.delay as u64;
    let cost = top * rule.offset as u64;
    gain as i64 - cost as i64
}

/// What a rule offers its target: the number of its source and the rule's weight.
pub fn offered(rule: Rule, top: u64, bottom: u64, times: &[i64]) -> i64
    requires ratio { IsSmallRatio top bottom }
    requires rule { IsRule (length times.now) rule }
    requires within { LiesWithin 40000000000000000 (time_of times.now rule.source) }
    ensures { result ≡ time_of times.now rule.source +ℤ rule_weight top bottom rule }
{
    times[rule.source as usize] + weight_of(rule, top, bottom)
}

/// The sum of the delays along a list of rule numbers, in picoseconds.
pub fn delay_of(rules: &[Rule], walk: &[u32]) -> u64
    requires within { All (λ n. n < length rules.now) walk.now }
    requires small { delay_sum rules.now walk.now ≤ most_top }
    ensures { result ≡ delay_sum rules.now walk.now }
{
    let mut sum = 0;
    'numbers: for number in walk {
        sum += u64::from(rules[*number as usize].delay);
    }
    sum
}

/// The sum of the offsets along a list of rule numbers, in repetitions.
pub fn offset_of(rules: &[Rule], walk: &[u32]) -> u64
    requires within { All (λ n. n < length rules.now) walk.now }
    requires small { offset_sum rules.now walk.now ≤ most_bottom }
    ensures { result ≡ offset_sum rules.now walk.now }
{
    let mut sum = 0;
    'numbers: for number in walk {
        sum += u64::from(rules[*number as usize].offset);
    }
    sum
}

/// Where rule numbers lead to from an event, if they make a walk.
pub fn end_of(rules: &[Rule], start: u32, walk: &[u32]) -> Option<u32>
    ensures some { IfSome result (λ end. IsWalk rules.now start walk.now end) }
    ensures none { IfNone result ((end : ℕ) → IsWalk rules.now start walk.now end → ⊥) }
{
    let mut at = start;
    'steps: for number in walk {
        match rules.get(*number as usize) {
            Some(rule) if rule.source == at => at = rule.target,
            _ => return None,
        }
    }
    Some(at)
}

/// Whether rule numbers make a cycle.
pub fn is_cycle(rules: &[Rule], walk: &[u32]) -> bool
    ensures cycle { result ≡ true → IsCycle rules.now walk.now }
    ensures none { result ≡ false → IsCycle rules.now walk.now → ⊥ }
{
    let Some(first) = walk.first() else {
        return false;
    };
    let Some(rule) = rules.get(*first as usize) else {
        return false;
    };
    match end_of(rules, rule.source, walk) {
        Some(end) => end == rule.source,
        None => false,
    }
}
