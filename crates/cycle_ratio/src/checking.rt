//! The tests that a proposed cycle and proposed numbers have to pass.
ghost use Rattle.std.specs.Prelude.{◌≡◌, ◌≤◌, All, true, false};
ghost use Rattle.cyc_num.specs.Ratio.{IsSmallRatio};
ghost use Rattle.cyc_num.specs.Within.{LiesWithin};
ghost use Rattle.rule_system.specs.Weights.{HasNoGain};
ghost use Rattle.cycle_ratio.specs.Cycles.{IsShortCycle};

use cyc_num::Ratio;
use potentials::feasible;
use rule_system::System;
use rule_system::laws::feasible_numbers_bound_cycles;
use rule_system::measures::is_cycle;

/// The farthest that feasible numbers may lie from 0.
const WIDEST: i64 = 40_000_000_000_000_000;

/// Whether rule numbers make a cycle of at most as many rules as there are events.
pub fn is_short_cycle(system: &System, walk: &[u32]) -> bool
    ensures cycle { result ≡ true → IsShortCycle system.now.events system.now.rules walk.now }
    ensures none { result ≡ false → IsShortCycle system.now.events system.now.rules walk.now → ⊥ }
{
    walk.len() <= system.events() as usize && is_cycle(system.rules(), walk)
}

/// Whether numbers, one for each event, show that no cycle has a greater ratio than the period.
pub fn shows_no_gain(system: &System, period: Ratio, numbers: &[i64]) -> bool
    requires ratio { IsSmallRatio period.top period.bottom }
    ensures { result ≡ true → HasNoGain period.top period.bottom system.now.rules }
{
    feasible_numbers_bound_cycles();
    if numbers.len() != system.events() as usize {
        return false;
    }
    if !are_within(numbers) {
        return false;
    }
    feasible(system, period, numbers)
}

/// Whether the numbers are in the range that feasible numbers may have.
fn are_within(numbers: &[i64]) -> bool
    ensures { result ≡ true → All (LiesWithin 40000000000000000) numbers.now }
{
    'numbers: for number in numbers {
        if !is_within(*number) {
            return false;
        }
    }
    true
}

/// Whether the number is in the range that feasible numbers may have.
fn is_within(number: i64) -> bool
    ensures { result ≡ true → LiesWithin 40000000000000000 number }
{
    -WIDEST <= number && number <= WIDEST
}
