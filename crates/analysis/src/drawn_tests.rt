//! Analyses of small drawn systems against plain slow programs.
ghost use Rattle.std.specs.Prelude.{◌≡◌, ◌<◌, ◌≤◌, All, IfOk, length};
ghost use Rattle.cyc_num.specs.Ratio.{IsSmallRatio};
ghost use Rattle.rule_system.specs.Bounds.{IsRule};
ghost use Rattle.rule_system.specs.Weights.{HasNoGain};
ghost use Rattle.analysis.specs.Analysis.{IsAnalysis};
ghost use Rattle.analysis.specs.Forks.{IsFork};

use crate::{Analysis, analyse};
use fork_slack::ForkOf;
use liveness_check::check;
use potentials::Plain;
use rule_system::laws::periods_are_bounded;
use rule_system::plain::{arrivals, first_cycle};
use rule_system::{MOST_RULES, Rule, System};
use std::alloc::{AllocError, Global};
use std::test::Fail;

/// A generator of small numbers: a linear congruence.
#[derive(Drop)]
struct Numbers {
    state: u64,
}

impl Numbers {
    fn below(&mut self, bound: u32) -> u32
        requires { 0 < bound }
        ensures { result < bound }
    {
        self.state = self
            .state
            .wrapping_mul(6364136223846793005)
            .wrapping_add(1442695040888963407);
        (self.state >> 33) as u32 % bound
    }

    fn rule(&mut self, events: u32, number: u32) -> Rule
        requires { 0 < events }
        ensures { IsRule events result }
    {
        let source = number % events;
        let target = if number < events {
            source.wrapping_add(1) % events
        } else {
            self.below(events)
        };
        Rule {
            source,
            target,
            delay: self.below(20),
            offset: self.below(3),
        }
    }

    fn fork(&mut self, events: u32) -> ForkOf
        requires { 0 < events }
        ensures { IsFork events result }
    {
        ForkOf {
            root: self.below(events),
            fast: self.below(events),
            slow: self.below(events),
            margin: self.below(10),
            offset: self.below(3),
        }
    }
}

/// A ring of rules through all events, and two rules more.
fn drawn_rules(alloc: Global, numbers: &mut Numbers, events: u32) -> Result<Vec<Rule>, AllocError>
    requires { 0 < events }
    ensures { IfOk result (λ rules. All (IsRule events) rules.items) }
{
    let mut rules = Vec::new(alloc);
    'rules: for number in 0..events.saturating_add(2) {
        let rule = numbers.rule(events, number);
        rules.push(rule)?;
    }
    Ok(rules)
}

/// Three forks.
fn drawn_forks(alloc: Global, numbers: &mut Numbers, events: u32) -> Result<Vec<ForkOf>, AllocError>
    requires { 0 < events }
    ensures { IfOk result (λ forks. All (IsFork events) forks.items) }
{
    let mut forks = Vec::new(alloc);
    'forks: for _ in 0..3u32 {
        let fork = numbers.fork(events);
        forks.push(fork)?;
    }
    Ok(forks)
}

/// The time of an event, later by a product.
fn later(times: &[i64], event: u32, factor: u64, count: u32) -> Option<i128> {
    let time = times.get(event as usize)?;
    let product = i128::from(factor).wrapping_mul(i128::from(count));
    Some(i128::from(*time).wrapping_add(product))
}

/// Of each rule, whether it is tight.
fn tight_rules(
    alloc: Global,
    system: &System,
    times: &[i64],
    top: u64,
    bottom: u64,
) -> Result<Vec<bool>, AllocError>
    ensures { IfOk result (λ keep. length keep.items ≡ length system.now.rules) }
{
    let mut keep = Vec::new(alloc);
    'rules: for rule in system.rules() {
        let from = later(times, rule.source, bottom, rule.delay);
        let to = later(times, rule.target, top, rule.offset);
        keep.push(from == to)?;
    }
    Ok(keep)
}

/// The slack of a fork, by arrivals from its own root.
fn plain_slack(
    alloc: Global,
    system: &System,
    fork: ForkOf,
    top: u64,
    bottom: u64,
) -> Result<Option<i128>, AllocError>
    requires ratio { IsSmallRatio top bottom }
    requires root { fork.root < system.now.events }
    requires no_gain { HasNoGain top bottom system.now.rules }
{
    match check(alloc, system, fork.root) {
        Ok(()) => {
            let times = arrivals(alloc, top, bottom, system, fork.root)?;
            let slow = later(&times, fork.slow, top, fork.offset);
            let fast = later(&times, fork.fast, bottom, fork.margin);
            Ok(slow.zip(fast).map(|(slow, fast)| slow.wrapping_sub(fast)))
        }
        Err(_) => Ok(None),
    }
}

/// Whether the plain programs find the same.
fn agrees(
    alloc: Global,
    system: &System,
    root: u32,
    forks: &[ForkOf],
    analysis: &Analysis,
) -> Result<bool, AllocError>
    requires root { root < system.now.events }
    requires forks { All (IsFork system.now.events) forks.now }
    requires right { IsAnalysis system.now root forks.now analysis.now }
{
    periods_are_bounded();
    let _events = system.events();
    let top = analysis.period.top();
    let bottom = analysis.period.bottom();
    let times = arrivals(alloc, top, bottom, system, root)?;
    let keep = tight_rules(alloc, system, &times, top, bottom)?;
    let cycle = first_cycle(alloc, system, &keep)?;
    let slacks = analysis.slacks.list();
    'forks: for (number, fork) in forks.iter().enumerate() {
        let slack = plain_slack(alloc, system, *fork, top, bottom)?;
        if slack != slacks.get(number).map(|slack| i128::from(*slack)) {
            return Ok(false);
        }
    }
    let same_cycle = match &cycle {
        Some(cycle) => cycle.list() == analysis.cycle.list(),
        None => false,
    };
    Ok(same_cycle && times.as_slice() == analysis.arrivals.list())
}

#[test]
fn agrees_with_plain_programs(rt: HostRuntime) -> Result<(), Fail> {
    let alloc = rt.alloc();
    let mut numbers = Numbers { state: 1 };
    let mut judged = 0u32;
    for round in 0..60 {
        let events = 2 + numbers.below(3);
        let root = numbers.below(events);
        let rules = drawn_rules(alloc, &mut numbers, events)?;
        let forks = drawn_forks(alloc, &mut numbers, events)?;
        assert!(rt; rules.len() <= MOST_RULES);
        let system = System::build(alloc, events, rules)?;
        if let Ok(analysis) = analyse(&rt, alloc, &system, root, &forks, &Plain) {
            assert!(rt;
                agrees(alloc, &system, root, &forks, &analysis)?,
                "round {round}"
            );
            judged = judged.saturating_add(1);
        }
    }
    assert!(rt; judged > 20, "{judged} of 60 systems have an analysis");
    Ok(())
}
