//! First cycles of worked systems, and of drawn ones against all walks.
ghost use Rattle.std.specs.Prelude.{◌≡◌, ◌<◌, ◌≤◌, All, IfOk, length, vec_len};
ghost use Rattle.rule_system.specs.Bounds.{IsRule};

use crate::{first_cycle, levels_from, levels_to};
use rule_system::{MOST_EVENTS, MOST_RULES, Rule, System};
use std::alloc::{AllocError, Global};
use std::process::Abort;
use std::test::Fail;

/// Rules between these events, after a test that they are events.
fn rules_between(
    rt: &impl Abort,
    alloc: Global,
    events: u32,
    ends: &[(u32, u32)],
) -> Result<Vec<Rule>, AllocError>
    ensures count { IfOk result (λ rules. vec_len rules ≡ length ends.now) }
    ensures rules { IfOk result (λ rules. All (IsRule events) rules.items) }
{
    let mut rules = Vec::new(alloc);
    'ends: for (source, target) in ends {
        assert!(rt; *source < events);
        assert!(rt; *target < events);
        rules.push(Rule {
            source: *source,
            target: *target,
            delay: 1,
            offset: 0,
        })?;
    }
    Ok(rules)
}

/// The numbers of the first cycle's rules where those of some numbers are dropped; none where there is no cycle.
fn found(
    rt: &impl Abort,
    alloc: Global,
    events: u32,
    ends: &[(u32, u32)],
    dropped: &[usize],
) -> Result<Vec<u32>, AllocError> {
    assert!(rt; events <= MOST_EVENTS);
    assert!(rt; ends.len() <= MOST_RULES);
    let rules = rules_between(rt, alloc, events, ends)?;
    let system = System::build(alloc, events, rules)?;
    let mut keep = vec![in alloc; true; ends.len()]?;
    for number in dropped {
        if *number < ends.len() {
            keep[*number] = false;
        }
    }
    match first_cycle(alloc, &system, &keep)? {
        Some(cycle) => cycle.list().to_vec(alloc),
        None => Ok(Vec::new(alloc)),
    }
}

#[test]
fn finds_the_first(rt: HostRuntime) -> Result<(), Fail> {
    let ring = [(1, 2), (0, 3), (3, 4), (2, 5), (5, 0), (4, 1)];
    let rows: [(&str, u32, &[(u32, u32)], &[usize], &[u32]); 12] = [
        ("ring without a tick", 6, &ring, &[], &[1, 2, 5, 0, 3, 4]),
        ("ring with a tick", 6, &ring, &[4], &[]),
        ("rule to its own source", 1, &[(0, 0)], &[], &[0]),
        (
            "shorter",
            3,
            &[(0, 1), (1, 2), (2, 0), (0, 2)],
            &[],
            &[3, 2],
        ),
        (
            "first list",
            3,
            &[(0, 2), (0, 1), (1, 0), (2, 0)],
            &[],
            &[0, 3],
        ),
        (
            "side by side",
            2,
            &[(0, 1), (0, 1), (1, 0), (1, 0)],
            &[],
            &[0, 2],
        ),
        (
            "only leads there",
            3,
            &[(0, 1), (1, 2), (2, 1)],
            &[],
            &[1, 2],
        ),
        (
            "between cycles",
            3,
            &[(1, 1), (1, 0), (0, 2), (2, 2)],
            &[],
            &[0],
        ),
        ("not kept", 2, &[(0, 1), (1, 0), (1, 1)], &[0], &[2]),
        ("nothing kept", 2, &[(0, 1), (1, 0)], &[0, 1], &[]),
        ("no rules", 3, &[], &[], &[]),
        ("one event", 1, &[], &[], &[]),
    ];
    for (name, events, ends, dropped, want) in rows {
        let got = found(&rt, rt.alloc(), events, ends, dropped)?;
        assert_eq!(rt; got.as_slice(), want, "{name}");
    }
    Ok(())
}

#[test]
fn counts_kept_rules_to_an_event_and_from_it(rt: HostRuntime) -> Result<(), Fail> {
    let alloc = rt.alloc();
    let ends = [(0, 1), (1, 2), (2, 0), (2, 3), (0, 2), (2, 1)];
    let keep = [true, true, true, true, false, false];
    let rules = rules_between(&rt, alloc, 4, &ends)?;
    let system = System::build(alloc, 4, rules)?;
    let to = levels_to(alloc, &system, &keep, 2)?;
    assert_eq!(rt; to.as_slice(), [2, 1, 0, 4].as_slice());
    let from = levels_from(alloc, &system, &keep, 2)?;
    assert_eq!(rt; from.as_slice(), [1, 2, 0, 1].as_slice());
    Ok(())
}

/// A walk: where it ends, and its rules.
#[derive(Drop)]
struct Walk {
    end: u32,
    numbers: Vec<u32>,
}

/// The walks of one kept rule more, in the order of lists.
fn longer(
    alloc: Global,
    ends: &[(u32, u32)],
    dropped: &[usize],
    walks: &[Walk],
) -> Result<Vec<Walk>, Fail> {
    let mut longer = Vec::new(alloc);
    for walk in walks {
        for (number, (source, target)) in ends.iter().enumerate() {
            if *source == walk.end && !dropped.contains(&number) {
                let mut numbers = walk.numbers.clone()?;
                numbers.push(u32::try_from(number)?)?;
                longer.push(Walk {
                    end: *target,
                    numbers,
                })?;
            }
        }
    }
    Ok(longer)
}

/// The first closed walk from an event, of all walks of at most so many rules.
fn listed_from(
    alloc: Global,
    start: u32,
    most: u32,
    ends: &[(u32, u32)],
    dropped: &[usize],
) -> Result<Option<Vec<u32>>, Fail> {
    let mut walks = Vec::new(alloc);
    walks.push(Walk {
        end: start,
        numbers: Vec::new(alloc),
    })?;
    for _ in 0..most {
        walks = longer(alloc, ends, dropped, &walks)?;
        if let Some(walk) = walks.iter().find(|walk| walk.end == start) {
            return Ok(Some(walk.numbers.clone()?));
        }
    }
    Ok(None)
}

/// A generator of small numbers: a linear congruence.
#[derive(Drop)]
struct Numbers {
    state: u64,
}

impl Numbers {
    fn below(&mut self, bound: u32) -> u32
        requires { 0 < bound }
        ensures { result < bound }
    {
        self.state = self
            .state
            .wrapping_mul(6364136223846793005)
            .wrapping_add(1442695040888963407);
        (self.state >> 33) as u32 % bound
    }
}

/// Ends of rules between these events, at random.
fn random_ends(
    alloc: Global,
    numbers: &mut Numbers,
    events: u32,
) -> Result<Vec<(u32, u32)>, AllocError>
    requires { 0 < events }
{
    let mut ends = Vec::new(alloc);
    for _ in 0..2 * u64::from(events) {
        ends.push((numbers.below(events), numbers.below(events)))?;
    }
    Ok(ends)
}

#[test]
fn agrees_with_listed_walks(rt: HostRuntime) -> Result<(), Fail> {
    let alloc = rt.alloc();
    let mut numbers = Numbers { state: 1 };
    for round in 0..60 {
        let events = 1 + numbers.below(5);
        let ends = random_ends(alloc, &mut numbers, events)?;
        let dropped = [numbers.below(12) as usize, numbers.below(12) as usize, 1];
        let mut want = Vec::new(alloc);
        for start in 0..events {
            if want.is_empty()
                && let Some(cycle) = listed_from(alloc, start, events, &ends, &dropped)?
            {
                want = cycle;
            }
        }
        let got = found(&rt, alloc, events, &ends, &dropped)?;
        assert_eq!(rt; got, want, "round {round}");
    }
    Ok(())
}
