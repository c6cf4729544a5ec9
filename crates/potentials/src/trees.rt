//! Walks from the root to each event, along rules that are proposed.
ghost use Rattle.std.specs.Prelude.{◌≡◌, ◌<◌, ◌≤◌, ◌↔◌, ℕ, pos, false, All, IsTrue, length, replicate};
ghost use Rattle.cyc_num.specs.Ratio.{IsSmallRatio};
ghost use Rattle.rule_system.specs.Rules.{source_of, target_of};
ghost use Rattle.rule_system.specs.Bounds.{IsSystem};
ghost use Rattle.cyc_num.specs.Within.{LiesWithin, time_limit};
ghost use Rattle.potentials.specs.Times.{AllReachable, ArePathWeights};
ghost use Rattle.potentials.specs.Trees.{IsTree, IsReached, StaysReached};

use rule_system::System;
use rule_system::measures::offered;

/// Lets a rule from a reached event reach its target, if that isn't reached yet.
fn attach(
    system: &System,
    number: usize,
    root: u32,
    top: u64,
    bottom: u64,
    times: &mut [i64],
    reached: &mut [bool],
)
    requires ratio { IsSmallRatio top bottom }
    requires root { root < system.now.events }
    requires number { number < length system.now.rules }
    requires tree { IsTree top bottom system.now.events system.now.rules root times.old reached.old }
    ensures tree { IsTree top bottom system.now.events system.now.rules root times.new reached.new }
    ensures stays { StaysReached reached.old reached.new }
    ensures joined { IsReached reached.old (source_of system.now.rules number) → IsReached reached.new (target_of system.now.rules number) }
{
    let rule = system.rules()[number];
    if reached[rule.source as usize] && !reached[rule.target as usize] {
        times[rule.target as usize] = offered(rule, top, bottom, times);
        reached[rule.target as usize] = true;
    }
}

/// Attaches the rules of these numbers, one after the other. Numbers that are no rule's are passed over.
fn follow(
    system: &System,
    order: &[u32],
    root: u32,
    top: u64,
    bottom: u64,
    times: &mut [i64],
    reached: &mut [bool],
)
    requires ratio { IsSmallRatio top bottom }
    requires root { root < system.now.events }
    requires tree { IsTree top bottom system.now.events system.now.rules root times.old reached.old }
    ensures { IsTree top bottom system.now.events system.now.rules root times.new reached.new }
{
    let count = system.rules().len();
    'numbers: for number in order {
        if (*number as usize) < count {
            attach(system, *number as usize, root, top, bottom, times, reached);
        }
    }
}

/// Attaches each rule once.
fn spread(
    system: &System,
    root: u32,
    top: u64,
    bottom: u64,
    times: &mut [i64],
    reached: &mut [bool],
)
    requires ratio { IsSmallRatio top bottom }
    requires root { root < system.now.events }
    requires tree { IsTree top bottom system.now.events system.now.rules root times.old reached.old }
    ensures tree { IsTree top bottom system.now.events system.now.rules root times.new reached.new }
    ensures stays { StaysReached reached.old reached.new }
    ensures joined { (n : ℕ) → n < length system.now.rules → IsReached reached.old (source_of system.now.rules n) → IsReached reached.new (target_of system.now.rules n) }
{
    'rules: for number in 0..system.rules().len() {
        attach(system, number, root, top, bottom, times, reached);
    }
}

/// Whether each event is reached.
fn all_reached(reached: &[bool]) -> bool
    ensures { IsTrue result ↔ ((event : ℕ) → event < length reached.now → IsReached reached.now event) }
{
    'events: for event in reached {
        if !*event {
            return false;
        }
    }
    true
}

/// Reaches the events that are left.
fn complete(
    system: &System,
    root: u32,
    top: u64,
    bottom: u64,
    times: &mut [i64],
    reached: &mut [bool],
)
    requires ratio { IsSmallRatio top bottom }
    requires root { root < system.now.events }
    requires reachable { AllReachable system.now.events system.now.rules root }
    requires tree { IsTree top bottom system.now.events system.now.rules root times.old reached.old }
    ensures tree { IsTree top bottom system.now.events system.now.rules root times.new reached.new }
    ensures all { (event : ℕ) → event < system.now.events → IsReached reached.new event }
    ensures system { IsSystem system.now.events system.now.rules }
{
    'rounds: for _ in 0..system.events() {
        if all_reached(reached) {
            return;
        }
        spread(system, root, top, bottom, times, reached);
    }
}

/// Writes the weight of a path from the root to each event: paths of the rules that are proposed, in this order, as
/// far as they lead, then paths of any rules.
pub fn grow(
    system: &System,
    order: &[u32],
    root: u32,
    top: u64,
    bottom: u64,
    times: &mut [i64],
    reached: &mut [bool],
)
    requires ratio { IsSmallRatio top bottom }
    requires root { root < system.now.events }
    requires reachable { AllReachable system.now.events system.now.rules root }
    requires zeros { times.old ≡ replicate system.now.events (pos 0) }
    requires unreached { reached.old ≡ replicate system.now.events false }
    ensures weights { ArePathWeights top bottom system.now.events system.now.rules root times.new }
    ensures within { All (LiesWithin time_limit) times.new }
{
    reached[root as usize] = true;
    follow(system, order, root, top, bottom, times, reached);
    complete(system, root, top, bottom, times, reached);
}
