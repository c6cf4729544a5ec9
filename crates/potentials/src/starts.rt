//! Weights of walks from the root, for a search to begin with.
ghost use Rattle.std.specs.Prelude.{◌≡◌, ◌<◌, ◌≤◌, ℕ, pos, All, IfOk};
ghost use Rattle.cyc_num.specs.Ratio.{IsSmallRatio};
ghost use Rattle.rule_system.specs.Weights.{time_of, AreAttained};
ghost use Rattle.cyc_num.specs.Within.{LiesWithin, time_limit};
ghost use Rattle.potentials.specs.Times.{AllReachable, ArePathWeights};

use crate::search::Reduced;
use crate::times::Times;
use crate::trees::grow;
use cyc_num::Ratio;
use rule_system::System;
use std::alloc::{AllocError, Global};

/// For each event the weight of a walk from the root that comes by no event twice; the root's is 0.
/// The weights are `bottom * delay - top * offset`, in picoseconds scaled by the period's bottom.
pub fn first_weights(
    alloc: Global,
    system: &System,
    root: u32,
    period: Ratio,
) -> Result<Times, AllocError>
    requires ratio { IsSmallRatio period.top period.bottom }
    requires root { root < system.now.events }
    requires reachable { AllReachable system.now.events system.now.rules root }
    ensures weights { IfOk result (λ x. ArePathWeights period.top period.bottom system.now.events system.now.rules root x) }
    ensures attained { IfOk result (λ x. AreAttained period.top period.bottom system.now.events system.now.rules root x) }
    ensures root { IfOk result (λ x. time_of x root ≡ pos 0) }
    ensures within { IfOk result (λ x. All (LiesWithin time_limit) x) }
{
    let reduced = Reduced::at(alloc, system, period)?;
    first_weights_by(alloc, system, root, period, &reduced)
}

/// The same, with what a search for the period leaves already at hand. Nothing is asked of it: it saves time where it fits the
/// system and the period.
pub fn first_weights_by(
    alloc: Global,
    system: &System,
    root: u32,
    period: Ratio,
    reduced: &Reduced,
) -> Result<Times, AllocError>
    requires ratio { IsSmallRatio period.top period.bottom }
    requires root { root < system.now.events }
    requires reachable { AllReachable system.now.events system.now.rules root }
    ensures weights { IfOk result (λ x. ArePathWeights period.top period.bottom system.now.events system.now.rules root x) }
    ensures attained { IfOk result (λ x. AreAttained period.top period.bottom system.now.events system.now.rules root x) }
    ensures root { IfOk result (λ x. time_of x root ≡ pos 0) }
    ensures within { IfOk result (λ x. All (LiesWithin time_limit) x) }
{
    let order = reduced.rules_from(alloc, root)?;
    let weights = path_weights(alloc, system, &order, root, period.top(), period.bottom())?;
    Ok(Times::of(weights))
}

/// The weights of paths from the root, of proposed rules as far as they lead.
pub fn path_weights(
    alloc: Global,
    system: &System,
    order: &[u32],
    root: u32,
    top: u64,
    bottom: u64,
) -> Result<Vec<i64>, AllocError>
    requires ratio { IsSmallRatio top bottom }
    requires root { root < system.now.events }
    requires reachable { AllReachable system.now.events system.now.rules root }
    ensures weights { IfOk result (λ x. ArePathWeights top bottom system.now.events system.now.rules root x.items) }
    ensures within { IfOk result (λ x. All (LiesWithin time_limit) x.items) }
{
    let events = system.events() as usize;
    let mut times = vec![in alloc; 0; events]?;
    let mut reached = vec![in alloc; false; events]?;
    grow(system, order, root, top, bottom, &mut times, &mut reached);
    Ok(times)
}
