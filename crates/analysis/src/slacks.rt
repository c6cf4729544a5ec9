//! The slacks of forks, root by root, each over the arrivals from the fork's own root.
ghost use Rattle.std.specs.Prelude.{◌≡◌, ◌<◌, ◌≤◌, ℕ, All, IfOk, length, true};
ghost use Rattle.std.specs.List.{AllZip};
ghost use Rattle.cyc_num.specs.Ratio.{IsSmallRatio};
ghost use Rattle.cyc_num.specs.Within.{LiesWithin, time_limit};
ghost use Rattle.rule_system.specs.Walks.{IsConnected};
ghost use Rattle.rule_system.specs.Weights.{AreArrivals, HasNoGain, time_of};
ghost use Rattle.potentials.specs.Makers.{AreArrivalsFrom};
ghost use Rattle.analysis.specs.Forks.{AreSlacks, AreSlacksOf, HasRoot, IsAmong, IsFork, IsMade, fork_at, slack_or};

use cyc_num::Ratio;
use fork_slack::{ForkOf, slack};
use potentials::search::Reduced;
use potentials::{ArrivalMaker, Times};
use rule_system::System;
use std::alloc::{AllocError, Global};
use std::thread::Threads;

/// The slack of each fork, by the arrivals from its own root. The arrivals given are those from the system's root;
/// those from the forks' other roots are made at once, for each root one time.
pub fn slacks_of<R: Threads + Sync, M: ArrivalMaker>(
    rt: &R,
    alloc: Global,
    system: &System,
    root: u32,
    period: Ratio,
    reduced: &Reduced,
    arrivals: &[i64],
    forks: &[ForkOf],
    maker: &M,
) -> Result<Times, AllocError>
    requires ratio { IsSmallRatio period.top period.bottom }
    requires connected { IsConnected system.now.events system.now.rules root }
    requires no_gain { HasNoGain period.top period.bottom system.now.rules }
    requires arrivals { AreArrivals period.top period.bottom system.now.events system.now.rules root arrivals.now }
    requires within { All (LiesWithin time_limit) arrivals.now }
    requires forks { All (IsFork system.now.events) forks.now }
    ensures { IfOk result (λ slacks. AreSlacks period.top period.bottom system.now.rules forks.now slacks) }
{
    let roots = other_roots(alloc, forks, root)?;
    let lists = maker.arrivals_each(rt, alloc, system, &roots, period, reduced)?;
    let mut slacks = vec![in alloc; 0; forks.len()]?;
    fill_all(
        system,
        forks,
        root,
        arrivals,
        &roots,
        period,
        &lists,
        &mut slacks,
    );
    Ok(Times::of(slacks))
}

/// The different roots of forks but this one, in the order in which they first stand.
fn other_roots(alloc: Global, forks: &[ForkOf], root: u32) -> Result<Vec<u32>, AllocError>
    ensures made { IfOk result (λ roots. (n : ℕ) → n < length forks.now → IsMade root roots.items (fork_at forks.now n).root) }
    ensures theirs { IfOk result (λ roots. All (HasRoot forks.now) roots.items) }
{
    let mut roots = Vec::new(alloc);
    'forks: for number in 0..forks.len() {
        let own = forks[number].root;
        if own != root && !is_among(&roots, own) {
            roots.push(own)?;
        }
    }
    Ok(roots)
}

/// Whether the root is among these.
fn is_among(roots: &[u32], own: u32) -> bool
    ensures { result ≡ true → IsAmong roots.now own }
{
    'roots: for root in roots {
        if *root == own {
            return true;
        }
    }
    false
}

/// Writes the slacks of the forks of the system's root, and of each of the others.
fn fill_all(
    system: &System,
    forks: &[ForkOf],
    root: u32,
    arrivals: &[i64],
    roots: &[u32],
    period: Ratio,
    lists: &[Times],
    slacks: &mut [i64],
)
    requires ratio { IsSmallRatio period.top period.bottom }
    requires arrivals { AreArrivalsFrom period.top period.bottom system.now root arrivals.now }
    requires forks { All (IsFork system.now.events) forks.now }
    requires lists { AllZip (AreArrivalsFrom period.top period.bottom system.now) roots.now lists.now }
    requires count { length slacks.old ≡ length forks.now }
    ensures { AreSlacksOf period.top period.bottom system.now.rules forks.now root roots.now (length roots.now) slacks.new }
{
    fill(forks, root, period, arrivals, slacks);
    fill_each(system, forks, root, roots, period, lists, slacks);
}

/// Writes the slacks of the forks of each of the roots, by its list of arrivals.
fn fill_each(
    system: &System,
    forks: &[ForkOf],
    root: u32,
    roots: &[u32],
    period: Ratio,
    lists: &[Times],
    slacks: &mut [i64],
)
    requires ratio { IsSmallRatio period.top period.bottom }
    requires forks { All (IsFork system.now.events) forks.now }
    requires lists { AllZip (AreArrivalsFrom period.top period.bottom system.now) roots.now lists.now }
    requires first { AreSlacksOf period.top period.bottom system.now.rules forks.now root roots.now 0 slacks.old }
    ensures { AreSlacksOf period.top period.bottom system.now.rules forks.now root roots.now (length roots.now) slacks.new }
{
    'lists: for (at, list) in lists.iter().enumerate() {
        fill(forks, roots[at], period, list.list(), slacks);
    }
}

/// Writes the slacks of the forks of a root.
fn fill(forks: &[ForkOf], root: u32, period: Ratio, arrivals: &[i64], slacks: &mut [i64])
    requires ratio { IsSmallRatio period.top period.bottom }
    requires forks { All (IsFork (length arrivals.now)) forks.now }
    requires within { All (LiesWithin time_limit) arrivals.now }
    requires count { length slacks.old ≡ length forks.now }
    ensures count { length slacks.new ≡ length forks.now }
    ensures slacks { (n : ℕ) → n < length forks.now → time_of slacks.new n ≡ slack_or period.top period.bottom root arrivals.now (fork_at forks.now n) (time_of slacks.old n) }
{
    'forks: for (number, fork) in forks.iter().enumerate() {
        if fork.root == root {
            slacks[number] = slack(fork, arrivals, period);
        }
    }
}
