//! Makers of arrivals: the trait, and the one without rounds of workers.
ghost use Rattle.std.specs.Prelude.{◌≡◌, ◌<◌, ◌≤◌, ℕ, pos, All, IfOk};
ghost use Rattle.std.specs.List.{AllZip};
ghost use Rattle.std.specs.Thread.{IsSync};
ghost use Rattle.cyc_num.specs.Ratio.{IsSmallRatio};
ghost use Rattle.rule_system.specs.Walks.{IsConnected};
ghost use Rattle.rule_system.specs.Weights.{HasNoGain, AreArrivals};
ghost use Rattle.cyc_num.specs.Within.{LiesWithin, time_limit};
ghost use Rattle.potentials.specs.Makers.{AreArrivalsFrom, IsRootOf};

use crate::rounds::settle;
use crate::search::Reduced;
use crate::starts::path_weights;
use crate::times::Times;
use cyc_num::Ratio;
use rayon::prelude::*;
use rule_system::System;
use std::alloc::{AllocError, Global};
use std::thread::Threads;

/// A way to find arrivals.
pub trait ArrivalMaker {
    /// The arrivals from the root: for each event the greatest weight, `bottom * delay - top * offset`, over all
    /// walks from the root to it, in picoseconds scaled by the period's bottom.
    ///
    /// Of `reduced` nothing is asked, and the arrivals are the same whatever it is: it is what a search for the period
    /// leaves, made once for a system and a period, and saves time for each root where it fits them.
    ///
    /// That threads may share `rt` is asked for by a clause beside the bound, since a maker that starts threads knows the clause alone.
    fn arrivals<R: Threads + Sync>(
        &self,
        rt: &R,
        alloc: Global,
        system: &System,
        root: u32,
        period: Ratio,
        reduced: &Reduced,
    ) -> Result<Times, AllocError>
        requires sync { IsSync R.row }
        requires ratio { IsSmallRatio period.top period.bottom }
        requires root { root < system.now.events }
        requires connected { IsConnected system.now.events system.now.rules root }
        requires no_gain { HasNoGain period.top period.bottom system.now.rules }
        ensures arrivals { IfOk result (λ x. AreArrivals period.top period.bottom system.now.events system.now.rules root x) }
        ensures within { IfOk result (λ x. All (LiesWithin time_limit) x) };

    /// The arrivals from each of the roots, in their order: for each root those that `arrivals` makes of it. Roots may be shared out to as
    /// many threads as there are processors.
    fn arrivals_each<R: Threads + Sync>(
        &self,
        rt: &R,
        alloc: Global,
        system: &System,
        roots: &[u32],
        period: Ratio,
        reduced: &Reduced,
    ) -> Result<Vec<Times>, AllocError>
        requires sync { IsSync R.row }
        requires ratio { IsSmallRatio period.top period.bottom }
        requires roots { All (IsRootOf system.now) roots.now }
        requires no_gain { HasNoGain period.top period.bottom system.now.rules }
        ensures { IfOk result (λ lists. AllZip (AreArrivalsFrom period.top period.bottom system.now) roots.now lists.items) };
}

/// Finds the arrivals from a root on one thread: by one search of Dijkstra's over the reduced weights, which is tested.
#[derive(Clone, Copy, Debug, Default)]
pub struct Plain;

impl ArrivalMaker for Plain {
    fn arrivals<R: Threads + Sync>(
        &self,
        rt: &R,
        alloc: Global,
        system: &System,
        root: u32,
        period: Ratio,
        reduced: &Reduced,
    ) -> Result<Times, AllocError> {
        arrivals_by(alloc, system, root, period, reduced)
    }

    fn arrivals_each<R: Threads + Sync>(
        &self,
        rt: &R,
        alloc: Global,
        system: &System,
        roots: &[u32],
        period: Ratio,
        reduced: &Reduced,
    ) -> Result<Vec<Times>, AllocError> {
        roots
            .par_iter()
            .map(
                |root: &u32| -> Result<Times, AllocError>
                    requires { IsSmallRatio period.top period.bottom × IsRootOf system.now root.now × HasNoGain period.top period.bottom system.now.rules }
                    ensures { IfOk result (AreArrivalsFrom period.top period.bottom system.entry.now root.now) }
                { arrivals_by(alloc, system, *root, period, reduced) },
            )
            .collect(rt, alloc)?
    }
}

/// The arrivals from a root, by one search of Dijkstra's over the reduced weights, which is tested.
fn arrivals_by(
    alloc: Global,
    system: &System,
    root: u32,
    period: Ratio,
    reduced: &Reduced,
) -> Result<Times, AllocError>
    requires ratio { IsSmallRatio period.top period.bottom }
    requires root { IsRootOf system.now root }
    requires no_gain { HasNoGain period.top period.bottom system.now.rules }
    ensures { IfOk result (AreArrivalsFrom period.top period.bottom system.now root) }
{
    let top = period.top();
    let bottom = period.bottom();
    let order = reduced.rules_from(alloc, root)?;
    let mut times = path_weights(alloc, system, &order, root, top, bottom)?;
    settle(system, root, top, bottom, &mut times);
    Ok(Times::of(times))
}
