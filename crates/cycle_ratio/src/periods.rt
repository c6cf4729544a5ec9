//! The period of a system and a cycle that attains it.
ghost use Rattle.std.specs.Prelude.{◌≡◌, ◌<◌, ◌≤◌, IfOk, replicate, true};
ghost use Rattle.cyc_num.specs.Ratio.{IsLowest, IsSmallRatio};
ghost use Rattle.rule_system.specs.Rules.{delay_sum, offset_sum};
ghost use Rattle.rule_system.specs.Walks.{IsCycle, IsLive};
ghost use Rattle.rule_system.specs.Weights.{Attains, HasNoGain, IsPeriod};
ghost use Rattle.cycle_ratio.specs.Cycles.{HasCycle, IsShortCycle};

use crate::checking::{is_short_cycle, shows_no_gain};
use crate::raising::{raise_cycle, sums_of};
use crate::search::{Proposal, numbers_of, propose};
use cyc_num::Ratio;
use first_cycle::first_cycle;
use potentials::search::{Places, Reduced, Scale};
use rule_system::{Cycle, System};
use std::alloc::{AllocError, Global};

/// The period of a system, a cycle that attains it, and what the search leaves for the arrivals.
#[derive(Drop)]
pub struct Found {
    /// Picoseconds a repetition, in lowest terms.
    pub period: Ratio,
    /// A cycle whose delay is the period times its offset.
    pub cycle: Cycle,
    /// The losses of the rules against the heights of the search. Nothing is promised of them.
    pub reduced: Reduced,
}

/// The period of a live system that has a cycle, and a cycle that attains it: `greatest_from` with no start.
pub fn greatest(alloc: Global, system: &System) -> Result<Found, AllocError>
    requires live { IsLive system.now.rules }
    requires cycle { HasCycle system.now.rules }
    ensures period { IfOk result (λ found. IsPeriod system.now.rules found.period.top found.period.bottom) }
    ensures cycle { IfOk result (λ found. IsCycle system.now.rules found.cycle) }
    ensures attains { IfOk result (λ found. Attains found.period.top found.period.bottom system.now.rules found.cycle) }
    ensures small { IfOk result (λ found. IsSmallRatio found.period.top found.period.bottom) }
{
    greatest_from(alloc, system, &[])
}

/// The period of a live system that has a cycle, and a cycle that attains it, whatever the start.
///
/// Where the start is the rule numbers of a cycle, at most as many as there are events, the search begins at its ratio: a
/// start that has the period, or nearly so, may save rounds. Any other start is passed over.
///
/// A search that is proved to end nowhere wrong but not to end right proposes a cycle, and numbers that bound the ratios of
/// all cycles; where the two fit, they are the answer. Else cycles of greater and greater ratios are taken, from the
/// proposed one on.
pub fn greatest_from(alloc: Global, system: &System, start: &[u32]) -> Result<Found, AllocError>
    requires live { IsLive system.now.rules }
    requires cycle { HasCycle system.now.rules }
    ensures period { IfOk result (λ found. IsPeriod system.now.rules found.period.top found.period.bottom) }
    ensures cycle { IfOk result (λ found. IsCycle system.now.rules found.cycle) }
    ensures attains { IfOk result (λ found. Attains found.period.top found.period.bottom system.now.rules found.cycle) }
    ensures small { IfOk result (λ found. IsSmallRatio found.period.top found.period.bottom) }
{
    let ratio = ratio_of(system, start);
    let Proposal {
        cycle,
        places,
        heights,
    } = propose(alloc, system, start, ratio)?;
    if !is_short_cycle(system, &cycle) {
        let first = any_cycle(alloc, system)?;
        return raised_from(alloc, system, &places, first);
    }
    let cycle = Cycle::of(cycle);
    let period = period_of(system, cycle.list());
    let numbers = numbers_of(alloc, &places, &heights)?;
    if !shows_no_gain(system, period, &numbers) {
        return raised_from(alloc, system, &places, cycle);
    }
    let reduced = Reduced::of(alloc, &places, Scale::of(period), heights.values())?;
    Ok(Found {
        period,
        cycle,
        reduced,
    })
}

/// The ratio of a start, if it is a cycle of at most as many rules as there are events.
fn ratio_of(system: &System, start: &[u32]) -> Option<Ratio>
    requires { IsLive system.now.rules }
{
    if !is_short_cycle(system, start) {
        return None;
    }
    Some(period_of(system, start))
}

/// The period and a cycle that attains it, by cycles of greater and greater ratios from one on.
fn raised_from(
    alloc: Global,
    system: &System,
    places: &Places,
    first: Cycle,
) -> Result<Found, AllocError>
    requires live { IsLive system.now.rules }
    requires cycle { IsShortCycle system.now.events system.now.rules first }
    ensures period { IfOk result (λ found. IsPeriod system.now.rules found.period.top found.period.bottom) }
    ensures cycle { IfOk result (λ found. IsCycle system.now.rules found.cycle) }
    ensures attains { IfOk result (λ found. Attains found.period.top found.period.bottom system.now.rules found.cycle) }
    ensures small { IfOk result (λ found. IsSmallRatio found.period.top found.period.bottom) }
{
    let cycle = raise_cycle(alloc, system, first)?;
    let period = period_of(system, cycle.list());
    let reduced = Reduced::between(alloc, places, period)?;
    Ok(Found {
        period,
        cycle,
        reduced,
    })
}

/// A cycle of a system that has one.
fn any_cycle(alloc: Global, system: &System) -> Result<Cycle, AllocError>
    requires { HasCycle system.now.rules }
    ensures { IfOk result (λ cycle. IsShortCycle system.now.events system.now.rules cycle) }
{
    let keep = all_kept(alloc, system.rules().len())?;
    match first_cycle(alloc, system, &keep)? {
        Some(cycle) => Ok(cycle),
        None => unreachable!(),
    }
}

/// Flags that keep so many rules.
fn all_kept(alloc: Global, count: usize) -> Result<Vec<bool>, AllocError>
    ensures { IfOk result (λ keep. keep.items ≡ replicate count true) }
{
    let keep = vec![in alloc; true; count]?;
    Ok(keep)
}

/// The ratio of a cycle, in lowest terms.
fn period_of(system: &System, cycle: &[u32]) -> Ratio
    requires live { IsLive system.now.rules }
    requires cycle { IsShortCycle system.now.events system.now.rules cycle.now }
    ensures lowest { IsLowest result.top result.bottom }
    ensures attains { Attains result.top result.bottom system.now.rules cycle.now }
    ensures greatest { HasNoGain (delay_sum system.now.rules cycle.now) (offset_sum system.now.rules cycle.now) system.now.rules → HasNoGain result.top result.bottom system.now.rules }
    ensures period { HasNoGain result.top result.bottom system.now.rules → IsPeriod system.now.rules result.top result.bottom }
    ensures small { IsSmallRatio result.top result.bottom }
{
    let sums = sums_of(system, cycle);
    Ratio::of(sums.delay, sums.offset)
}
