//! From a cycle to one of the greatest ratio.
ghost use Rattle.std.specs.Prelude.{◌≡◌, ◌<◌, ◌≤◌, IfOk};
ghost use Rattle.cyc_num.specs.Ratio.{IsSmallRatio};
ghost use Rattle.rule_system.specs.Bounds.{IsSystem};
ghost use Rattle.rule_system.specs.Rules.{delay_sum, offset_sum};
ghost use Rattle.rule_system.specs.Walks.{IsLive};
ghost use Rattle.rule_system.specs.Weights.{HasNoGain};
ghost use Rattle.cycle_ratio.specs.Cycles.{IsShortCycle};

use crate::gains::gain;
use rule_system::measures::{delay_of, offset_of};
use rule_system::{Cycle, System};
use std::alloc::{AllocError, Global};

/// Goes from a cycle to cycles of greater and greater ratios, and answers one of the greatest.
pub fn raise_cycle(alloc: Global, system: &System, first: Cycle) -> Result<Cycle, AllocError>
    requires live { IsLive system.now.rules }
    requires cycle { IsShortCycle system.now.events system.now.rules first }
    ensures cycle { IfOk result (λ cycle. IsShortCycle system.now.events system.now.rules cycle) }
    ensures greatest { IfOk result (λ cycle. HasNoGain (delay_sum system.now.rules cycle) (offset_sum system.now.rules cycle) system.now.rules) }
{
    let mut cycle = first;
    'raises: loop {
        let sums = sums_of(system, cycle.list());
        match gain(alloc, system, sums.delay, sums.offset)? {
            None => return Ok(cycle),
            Some(next) => cycle = next,
        }
    }
}

/// The delay and the offset of a cycle.
#[derive(Clone, Copy)]
pub struct Sums {
    pub delay: u64,
    pub offset: u64,
}

/// The delay and the offset of a cycle of at most as many rules as there are events.
pub fn sums_of(system: &System, cycle: &[u32]) -> Sums
    requires { IsShortCycle system.now.events system.now.rules cycle.now }
    ensures delay { result.delay ≡ delay_sum system.now.rules cycle.now }
    ensures offset { result.offset ≡ offset_sum system.now.rules cycle.now }
    ensures system { IsSystem system.now.events system.now.rules }
    ensures small { IsSmallRatio result.delay result.offset }
{
    let rules = system.rules();
    let delay = delay_of(rules, cycle);
    let offset = offset_of(rules, cycle);
    Sums { delay, offset }
}
