//! The critical cycle: the first cycle of the tight rules.
ghost use Rattle.std.specs.Prelude.{◌≡◌, ◌<◌, ◌≤◌, ◌+ℤ◌, ℕ, All, IfOk, length};
ghost use Rattle.std.specs.Ordering.{int_eq};
ghost use Rattle.cyc_num.specs.Ratio.{IsSmallRatio};
ghost use Rattle.cyc_num.specs.Within.{LiesWithin, time_limit};
ghost use Rattle.rule_system.specs.FirstCycle.{kept_by};
ghost use Rattle.rule_system.specs.Bounds.{IsRule};
ghost use Rattle.rule_system.specs.CriticalCycle.{IsCriticalCycle};
ghost use Rattle.rule_system.specs.Walks.{EndsBelow};
ghost use Rattle.rule_system.specs.Weights.{AreArrivals, IsPeriod, is_tight, rule_weight, time_of};

use cyc_num::Ratio;
use first_cycle::first_cycle;
use rule_system::laws::tight_cycles_have_a_first;
use rule_system::measures::offered;
use rule_system::{Cycle, Rule, System};
use std::alloc::{AllocError, Global};

/// The first cycle of the rules that are tight for the arrivals from the root. At the period there is one.
/// Linear in events and rules.
pub fn critical_cycle(
    alloc: Global,
    system: &System,
    root: u32,
    period: Ratio,
    arrivals: &[i64],
) -> Result<Cycle, AllocError>
    requires ratio { IsSmallRatio period.top period.bottom }
    requires period { IsPeriod system.now.rules period.top period.bottom }
    requires arrivals { AreArrivals period.top period.bottom system.now.events system.now.rules root arrivals.now }
    requires within { All (LiesWithin time_limit) arrivals.now }
    ensures { IfOk result (λ cycle. IsCriticalCycle period.top period.bottom system.now.events system.now.rules root cycle) }
{
    tight_cycles_have_a_first();
    let tight = tight_flags(alloc, system, period, arrivals)?;
    match first_cycle(alloc, system, &tight)? {
        Some(cycle) => Ok(cycle),
        None => unreachable!(),
    }
}

/// Of each rule, whether it is tight.
fn tight_flags(
    alloc: Global,
    system: &System,
    period: Ratio,
    arrivals: &[i64],
) -> Result<Vec<bool>, AllocError>
    requires ratio { IsSmallRatio period.top period.bottom }
    requires count { length arrivals.now ≡ system.now.events }
    requires within { All (LiesWithin time_limit) arrivals.now }
    ensures count { IfOk result (λ tight. length tight.items ≡ length system.now.rules) }
    ensures tight { IfOk result (λ tight. (n : ℕ) → n < length system.now.rules → kept_by tight.items n ≡ is_tight period.top period.bottom system.now.rules arrivals.now n) }
    ensures ends { EndsBelow system.now.events system.now.rules }
{
    let top = period.top();
    let bottom = period.bottom();
    let rules = system.rules();
    let mut tight = Vec::with_capacity(alloc, rules.len())?;
    'rules: for rule in rules {
        let flag = is_tight_rule(*rule, top, bottom, arrivals);
        tight.push(flag)?;
    }
    Ok(tight)
}

/// Whether the rule's source, later by the rule's weight, is at its target's arrival.
fn is_tight_rule(rule: Rule, top: u64, bottom: u64, arrivals: &[i64]) -> bool
    requires ratio { IsSmallRatio top bottom }
    requires rule { IsRule (length arrivals.now) rule }
    requires within { All (LiesWithin time_limit) arrivals.now }
    ensures { result ≡ int_eq (time_of arrivals.now rule.source +ℤ rule_weight top bottom rule) (time_of arrivals.now rule.target) }
{
    offered(rule, top, bottom, arrivals) == arrivals[rule.target as usize]
}
