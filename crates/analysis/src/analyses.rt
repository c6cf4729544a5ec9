//! The analysis of a system, or its first fault.
ghost use Rattle.std.specs.Prelude.{◌<◌, ◌≤◌, All, IfOk, IfErr};
ghost use Rattle.liveness_check.specs.Liveness.{IsFault};
ghost use Rattle.rule_system.specs.Walks.{IsConnected, IsLive};
ghost use Rattle.analysis.specs.Analysis.{IsAnalysis};
ghost use Rattle.analysis.specs.Faults.{live_fault};
ghost use Rattle.analysis.specs.Forks.{IsFork};

use crate::critical::critical_cycle;
use crate::faults::AnalyseFault;
use crate::slacks::slacks_of;
use cyc_num::Ratio;
use cycle_ratio::greatest_from;
use fork_slack::ForkOf;
use liveness_check::check;
use potentials::{ArrivalMaker, Times};
use rule_system::laws::connected_systems_have_a_cycle;
use rule_system::{Cycle, System};
use std::alloc::{AllocError, Global};
use std::thread::Threads;

/// The analysis of a system from a root, with the slacks of forks.
#[derive(Drop)]
pub struct Analysis {
    /// Picoseconds a repetition, in lowest terms: the greatest ratio of delay to offset over all cycles.
    pub period: Ratio,
    /// The first of the cycles of tight rules.
    pub cycle: Cycle,
    /// The arrival of each event from the root, in picoseconds scaled by the period's bottom.
    pub arrivals: Times,
    /// The slack of each fork, in picoseconds scaled by the period's bottom.
    pub slacks: Times,
}

/// The analysis of a system that is connected from the root and live; else the first of the faults V1 to V3 that holds.
/// The root and the forks' events are events of the system, margins are at most 1,000,000 and offsets at most 15.
/// It is `analyse_from` with no start.
pub fn analyse<R: Threads + Sync, M: ArrivalMaker>(
    rt: &R,
    alloc: Global,
    system: &System,
    root: u32,
    forks: &[ForkOf],
    maker: &M,
) -> Result<Analysis, AnalyseFault>
    requires events { 2 ≤ system.now.events }
    requires root { root < system.now.events }
    requires forks { All (IsFork system.now.events) forks.now }
    ensures right { IfOk result (λ analysis. IsAnalysis system.now root forks.now analysis) }
    ensures fault { IfErr result (λ fault. IsFault system.now.events system.now.rules root (live_fault fault)) }
{
    analyse_from(rt, alloc, system, root, forks, maker, &[])
}

/// The analysis of a system that is connected from the root and live; else the first of the faults V1 to V3 that holds. It
/// is the same for every start: rule numbers, of which the search for the period makes use where they are a cycle.
/// Arrivals are made once for each different root among the system's root and the forks' roots; what is done besides,
/// after the period is found, is linear in events and rules, and for each fork at most two passes over the forks.
pub fn analyse_from<R: Threads + Sync, M: ArrivalMaker>(
    rt: &R,
    alloc: Global,
    system: &System,
    root: u32,
    forks: &[ForkOf],
    maker: &M,
    start: &[u32],
) -> Result<Analysis, AnalyseFault>
    requires events { 2 ≤ system.now.events }
    requires root { root < system.now.events }
    requires forks { All (IsFork system.now.events) forks.now }
    ensures right { IfOk result (λ analysis. IsAnalysis system.now root forks.now analysis) }
    ensures fault { IfErr result (λ fault. IsFault system.now.events system.now.rules root (live_fault fault)) }
{
    check(alloc, system, root)?;
    let analysis = analysis_of(rt, alloc, system, root, forks, maker, start)?;
    Ok(analysis)
}

/// The analysis of a system that is connected from the root and live.
fn analysis_of<R: Threads + Sync, M: ArrivalMaker>(
    rt: &R,
    alloc: Global,
    system: &System,
    root: u32,
    forks: &[ForkOf],
    maker: &M,
    start: &[u32],
) -> Result<Analysis, AllocError>
    requires events { 2 ≤ system.now.events }
    requires root { root < system.now.events }
    requires forks { All (IsFork system.now.events) forks.now }
    requires connected { IsConnected system.now.events system.now.rules root }
    requires live { IsLive system.now.rules }
    ensures { IfOk result (λ analysis. IsAnalysis system.now root forks.now analysis) }
{
    connected_systems_have_a_cycle();
    let found = greatest_from(alloc, system, start)?;
    let period = found.period;
    let reduced = found.reduced;
    let arrivals = maker.arrivals(rt, alloc, system, root, period, &reduced)?;
    let times = arrivals.list();
    let cycle = critical_cycle(alloc, system, root, period, times)?;
    let slacks = slacks_of(
        rt, alloc, system, root, period, &reduced, times, forks, maker,
    )?;
    Ok(Analysis {
        period,
        cycle,
        arrivals,
        slacks,
    })
}
