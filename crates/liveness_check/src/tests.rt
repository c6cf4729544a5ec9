//! Rows of systems, and the fault of each.
ghost use Rattle.std.specs.Prelude.{◌≡◌, ◌≤◌, All, IfOk, length, vec_len};
ghost use Rattle.rule_system.specs.Bounds.{IsRule};

use crate::{LiveFault, check};
use rule_system::{MOST_EVENTS, MOST_OFFSET, MOST_RULES, Rule, System};
use std::alloc::{AllocError, Global};
use std::process::Abort;
use std::test::Fail;

/// Rules of these sources, targets and offsets, after a test that they are within the limits.
fn rules_of(
    rt: &impl Abort,
    alloc: Global,
    events: u32,
    parts: &[(u32, u32, u32)],
) -> Result<Vec<Rule>, AllocError>
    ensures count { IfOk result (λ rules. vec_len rules ≡ length parts.now) }
    ensures rules { IfOk result (λ rules. All (IsRule events) rules.items) }
{
    let mut rules = Vec::new(alloc);
    'parts: for (source, target, offset) in parts {
        assert!(rt; *source < events);
        assert!(rt; *target < events);
        assert!(rt; *offset <= MOST_OFFSET);
        rules.push(Rule {
            source: *source,
            target: *target,
            delay: 1,
            offset: *offset,
        })?;
    }
    Ok(rules)
}

/// What a check from event 0 answers, as a text.
fn verdict(
    rt: &impl Abort,
    alloc: Global,
    events: u32,
    parts: &[(u32, u32, u32)],
) -> Result<String, AllocError> {
    assert!(rt; 0 < events);
    assert!(rt; events <= MOST_EVENTS);
    assert!(rt; parts.len() <= MOST_RULES);
    let rules = rules_of(rt, alloc, events, parts)?;
    let system = System::build(alloc, events, rules)?;
    match check(alloc, &system, 0) {
        Ok(()) => format!(in alloc; "ok"),
        Err(LiveFault::Unreached(event)) => format!(in alloc; "unreached {event}"),
        Err(LiveFault::NoReturn(event)) => format!(in alloc; "no return {event}"),
        Err(LiveFault::Dead(cycle)) => {
            let numbers = cycle.list();
            format!(in alloc; "dead {numbers:?}")
        }
        Err(LiveFault::Memory) => Err(AllocError),
    }
}

#[test]
fn answers_the_first_fault(rt: HostRuntime) -> Result<(), Fail> {
    let buffers = [(0, 2, 0), (1, 3, 0), (2, 0, 1), (3, 1, 1)];
    let ring = [
        (1, 2, 0),
        (0, 3, 0),
        (3, 4, 0),
        (2, 5, 0),
        (5, 0, 1),
        (4, 1, 0),
    ];
    let dead_ring = [
        (1, 2, 0),
        (0, 3, 0),
        (3, 4, 0),
        (2, 5, 0),
        (5, 0, 0),
        (4, 1, 0),
    ];
    let branch = [
        (1, 2, 0),
        (0, 3, 0),
        (3, 4, 0),
        (2, 5, 0),
        (5, 0, 1),
        (4, 1, 0),
        (2, 7, 0),
        (3, 6, 0),
    ];
    let rows: [(&str, u32, &[(u32, u32, u32)]); 12] = [
        ("ok", 6, &ring),
        ("dead [1, 2, 5, 0, 3, 4]", 6, &dead_ring),
        ("unreached 1", 4, &buffers),
        ("no return 6", 8, &branch),
        ("unreached 2", 4, &[(0, 0, 0), (0, 1, 0)]),
        ("no return 1", 2, &[(0, 0, 0), (0, 1, 0)]),
        ("ok", 2, &[(0, 1, 1), (1, 0, 0)]),
        ("ok", 2, &[(0, 1, 0), (1, 0, 1)]),
        ("dead [0, 1]", 2, &[(0, 1, 0), (1, 0, 0)]),
        ("no return 1", 2, &[(0, 1, 0)]),
        ("unreached 1", 2, &[(1, 0, 0)]),
        ("ok", 1, &[]),
    ];
    for (want, events, parts) in rows {
        let got = verdict(&rt, rt.alloc(), events, parts)?;
        assert_eq!(rt; got.as_str(), want);
    }
    Ok(())
}
