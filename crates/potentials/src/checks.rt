//! Whether numbers of events rise along each rule by at least its weight.
ghost use Rattle.std.specs.Prelude.{◌≡◌, ◌<◌, ◌≤◌, ◌↔◌, ℕ, ◌+ℤ◌, ◌≤ℤ◌, All, IsTrue, length, List};
ghost use Rattle.cyc_num.specs.Ratio.{IsSmallRatio};
ghost use Rattle.rule_system.specs.Weights.{rule_weight, time_of, IsFeasible};
ghost use Rattle.rule_system.specs.Bounds.{IsRule};
ghost use Rattle.cyc_num.specs.Within.{LiesWithin};

use cyc_num::Ratio;
use rule_system::measures::offered;
use rule_system::{Rule, System};

/// Whether along each rule the numbers rise by at least its weight, `bottom * delay - top * offset`.
/// The numbers `x`, one for each event, are in picoseconds scaled by the period's bottom. One pass over the rules.
pub fn feasible(system: &System, period: Ratio, x: &[i64]) -> bool
    requires ratio { IsSmallRatio period.top period.bottom }
    requires count { length x.now ≡ system.now.events }
    requires within { All (LiesWithin 40000000000000000) x.now }
    ensures { IsTrue result ↔ IsFeasible period.top period.bottom system.now.rules x.now }
{
    are_loose(system, period.top(), period.bottom(), x)
}

/// Whether along each rule the numbers rise by at least its weight.
pub fn are_loose(system: &System, top: u64, bottom: u64, times: &[i64]) -> bool
    requires ratio { IsSmallRatio top bottom }
    requires count { length times.now ≡ system.now.events }
    requires within { All (LiesWithin 40000000000000000) times.now }
    ensures { IsTrue result ↔ IsFeasible top bottom system.now.rules times.now }
{
    'rules: for rule in system.rules() {
        if !is_loose(*rule, top, bottom, times) {
            return false;
        }
    }
    true
}

/// Whether the numbers rise along the rule by at least its weight.
fn is_loose(rule: Rule, top: u64, bottom: u64, times: &[i64]) -> bool
    requires ratio { IsSmallRatio top bottom }
    requires rule { IsRule (length times.now) rule }
    requires within { All (LiesWithin 40000000000000000) times.now }
    ensures { IsTrue result ↔ ((time_of times.now rule.source +ℤ rule_weight top bottom rule) ≤ℤ time_of times.now rule.target) }
{
    offered(rule, top, bottom, times) <= times[rule.target as usize]
}
