//! Rows of systems with their analyses or faults, and how often arrivals are made.
ghost use Rattle.std.specs.Prelude.{All, IfOk};
ghost use Rattle.rule_system.specs.Bounds.{IsRule};
ghost use Rattle.analysis.specs.Forks.{IsFork};

use crate::{AnalyseFault, Analysis, analyse};
use cyc_num::Ratio;
use fork_slack::ForkOf;
use potentials::search::Reduced;
use potentials::{ArrivalMaker, Plain, Times};
use rule_system::{MOST_DELAY, MOST_EVENTS, MOST_OFFSET, MOST_RULES, Rule, System};
use std::alloc::{AllocError, Global};
use std::cell::Cell;
use std::process::Abort;
use std::test::Fail;
use std::thread::Threads;

/// On each line the number of events; the rules by source, target, delay and offset; the root; the forks by root, fast
/// event, slow event, margin and offset; and the answer: the period, the critical cycle, the arrivals and the slacks.
const ANALYSES: &str = "\
6; 1 2 12 0, 0 3 10 0, 3 4 12 0, 2 5 10 0, 5 0 12 1, 4 1 10 0; 0; 0 4 1 0 0, 0 4 1 10 0, 0 4 1 11 0 => 66/1 [1, 2, 5, 0, 3, 4] [0, 32, 44, 10, 22, 54] [10, 0, -1]
6; 1 2 12 0, 0 3 10 0, 3 4 12 0, 2 5 10 0, 5 0 12 1, 4 1 10 1; 0;  => 33/1 [1, 2, 5, 0, 3, 4] [0, -1, 11, 10, 22, 21] []
6; 1 2 12 0, 0 3 10 0, 3 4 12 0, 2 5 10 0, 5 0 12 2, 4 1 10 2; 0; 0 4 1 0 2 => 33/2 [1, 2, 5, 0, 3, 4] [0, -2, 22, 20, 44, 42] [20]
6; 1 2 0 0, 0 3 0 0, 3 4 0 0, 2 5 0 0, 5 0 0 1, 4 1 0 0; 0;  => 0/1 [1, 2, 5, 0, 3, 4] [0, 0, 0, 0, 0, 0] []
12; 8 0 20 0, 9 1 18 1, 6 0 20 0, 7 1 18 0, 1 2 12 0, 0 3 10 0, 0 4 20 1, 1 5 18 0, 10 4 20 1, 11 5 18 0, 5 6 12 0, 4 7 10 0, 4 8 20 0, 5 9 18 0, 2 8 20 0, 3 9 18 0, 9 10 12 0, 8 11 10 0; 0; 0 3 9 5 0 => 180/1 [5, 15, 16, 8, 11, 3, 4, 14, 17, 9, 10, 2] [0, -92, -80, 10, -120, -32, -20, -110, -60, 28, 40, -50] [13]
8; 1 2 12 0, 0 3 10 0, 3 4 12 0, 2 5 10 0, 3 6 12 0, 2 7 10 0, 5 0 12 1, 4 1 10 0, 7 0 12 1, 6 1 10 0; 0;  => 66/1 [1, 2, 7, 0, 3, 6] [0, 32, 44, 10, 22, 54, 22, 54] []
2; 0 0 7 1, 1 0 7 1, 0 1 5 0, 1 1 5 1; 0;  => 12/1 [2, 1] [0, 5] []
3; 0 1 5 0, 1 0 5 1, 0 2 1 0, 2 1 1 0; 0; 2 2 1 0 0, 0 2 1 0 0, 2 1 2 0 0, 1 2 0 3 2 => 10/1 [0, 1] [0, 5, 1] [1, 4, -1, 16]
4; 0 2 7 0, 1 3 7 0, 2 0 7 1, 3 1 7 1; 0;  => Unreached(1)
8; 1 2 12 0, 0 3 10 0, 3 4 12 0, 2 5 10 0, 5 0 12 1, 4 1 10 0, 2 7 10 0, 3 6 12 0; 0;  => NoReturn(6)
6; 1 2 12 0, 0 3 10 0, 3 4 12 0, 2 5 10 0, 5 0 12 0, 4 1 10 0; 0;  => Dead(Cycle { numbers: [1, 2, 5, 0, 3, 4] })
";

fn number(word: Option<&str>) -> Result<u32, Fail> {
    Ok(word.ok_or("a number is missing")?.parse::<u32>()?)
}

/// A rule, if it is within the limits.
fn rule_of(rt: &impl Abort, events: u32, words: &str) -> Result<Rule, Fail>
    ensures { IfOk result (λ rule. IsRule events rule) }
{
    let mut words = words.split(' ');
    let source = number(words.next())?;
    let target = number(words.next())?;
    let delay = number(words.next())?;
    let offset = number(words.next())?;
    assert!(rt; source < events && target < events);
    assert!(rt; delay <= MOST_DELAY && offset <= MOST_OFFSET);
    Ok(Rule {
        source,
        target,
        delay,
        offset,
    })
}

fn rules_of(rt: &impl Abort, alloc: Global, events: u32, text: &str) -> Result<Vec<Rule>, Fail>
    ensures { IfOk result (λ rules. All (IsRule events) rules.items) }
{
    let mut rules = Vec::new(alloc);
    'rules: for words in text.split(',') {
        rules.push(rule_of(rt, events, words.trim_ascii())?)?;
    }
    Ok(rules)
}

/// A fork, if it is within the limits.
fn fork_of(rt: &impl Abort, events: u32, words: &str) -> Result<ForkOf, Fail>
    ensures { IfOk result (λ fork. IsFork events fork) }
{
    let mut words = words.split(' ');
    let root = number(words.next())?;
    let fast = number(words.next())?;
    let slow = number(words.next())?;
    let margin = number(words.next())?;
    let offset = number(words.next())?;
    assert!(rt; root < events && fast < events && slow < events);
    assert!(rt; margin <= 1_000_000 && offset <= 15);
    Ok(ForkOf {
        root,
        fast,
        slow,
        margin,
        offset,
    })
}

fn forks_of(rt: &impl Abort, alloc: Global, events: u32, text: &str) -> Result<Vec<ForkOf>, Fail>
    ensures { IfOk result (λ forks. All (IsFork events) forks.items) }
{
    let mut forks = Vec::new(alloc);
    'forks: for words in text.split(',') {
        let words = words.trim_ascii();
        if !words.is_empty() {
            forks.push(fork_of(rt, events, words)?)?;
        }
    }
    Ok(forks)
}

fn text_of(alloc: Global, answer: Result<Analysis, AnalyseFault>) -> Result<String, AllocError> {
    match answer {
        Ok(analysis) => {
            let top = analysis.period.top();
            let bottom = analysis.period.bottom();
            let cycle = analysis.cycle.list();
            let arrivals = analysis.arrivals.list();
            let slacks = analysis.slacks.list();
            format!(in alloc; "{top}/{bottom} {cycle:?} {arrivals:?} {slacks:?}")
        }
        Err(fault) => format!(in alloc; "{fault:?}"),
    }
}

/// The analysis of a line's system, as a text.
fn answer<R: Threads + Sync + Abort, M: ArrivalMaker>(
    rt: &R,
    alloc: Global,
    system: &str,
    maker: &M,
) -> Result<String, Fail> {
    let mut parts = system.split(';');
    let events = number(parts.next())?;
    assert!(rt; events >= 2 && events <= MOST_EVENTS);
    let rules = rules_of(rt, alloc, events, parts.next().ok_or("no rules")?)?;
    assert!(rt; rules.len() <= MOST_RULES);
    let root = number(Some(parts.next().ok_or("no root")?.trim_ascii()))?;
    assert!(rt; root < events);
    let forks = forks_of(rt, alloc, events, parts.next().ok_or("no forks")?)?;
    let system = System::build(alloc, events, rules)?;
    let answer = analyse(rt, alloc, &system, root, &forks, maker);
    Ok(text_of(alloc, answer)?)
}

#[test]
fn analyses_or_names_the_fault(rt: HostRuntime) -> Result<(), Fail> {
    'lines: for line in ANALYSES.lines() {
        let (system, wanted) = line.split_once(" => ").ok_or("no arrow")?;
        let answered = answer(&rt, rt.alloc(), system, &Plain)?;
        assert_eq!(rt; answered.as_str(), wanted);
    }
    Ok(())
}

/// Counts the roots from which arrivals are made.
#[derive(Drop)]
struct Counting {
    calls: Cell<u32>,
}

impl ArrivalMaker for Counting {
    fn arrivals<R: Threads + Sync>(
        &self,
        rt: &R,
        alloc: Global,
        system: &System,
        root: u32,
        period: Ratio,
        reduced: &Reduced,
    ) -> Result<Times, AllocError> {
        self.calls.set(self.calls.get().saturating_add(1));
        Plain.arrivals(rt, alloc, system, root, period, reduced)
    }

    fn arrivals_each<R: Threads + Sync>(
        &self,
        rt: &R,
        alloc: Global,
        system: &System,
        roots: &[u32],
        period: Ratio,
        reduced: &Reduced,
    ) -> Result<Vec<Times>, AllocError> {
        'roots: for _ in roots {
            self.calls.set(self.calls.get().saturating_add(1));
        }
        Plain.arrivals_each(rt, alloc, system, roots, period, reduced)
    }
}

#[test]
fn makes_arrivals_once_a_root(rt: HostRuntime) -> Result<(), Fail> {
    let maker = Counting {
        calls: Cell::new(0),
    };
    let forks = "2 0 1 0 0, 0 0 1 0 0, 1 0 1 0 0, 2 1 2 0 0, 1 1 2 0 0";
    let system = "3; 0 1 5 0, 1 0 5 1, 0 2 1 0, 2 1 1 0; 0; ";
    let line = format!(in rt.alloc(); "{system}{forks}")?;
    let answered = answer(&rt, rt.alloc(), line.as_str(), &maker)?;
    assert_eq!(rt;
        answered.as_str(),
        "10/1 [0, 1] [0, 5, 1] [5, 5, 5, -1, -4]"
    );
    assert_eq!(rt; maker.calls.get(), 3);
    Ok(())
}
