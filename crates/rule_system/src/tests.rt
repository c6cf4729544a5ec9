//! The inverter ring, its lists of rules, and the plain programs on it.
use crate::inverter_ring::{INVERTER_RING, ring_has_its_period, ring_system};
use crate::orders::order;
use crate::{Cycle, Rule, System, plain};
use std::test::Fail;

/// Two events with a rule from each to each.
const BOTH_WAYS: [Rule; 4] = [
    Rule {
        source: 0,
        target: 0,
        delay: 7,
        offset: 1,
    },
    Rule {
        source: 1,
        target: 0,
        delay: 7,
        offset: 1,
    },
    Rule {
        source: 0,
        target: 1,
        delay: 5,
        offset: 0,
    },
    Rule {
        source: 1,
        target: 1,
        delay: 5,
        offset: 1,
    },
];

/// A rule without offset from each event to the next, and back from the last to the second.
const DEAD_CYCLE: [Rule; 3] = [
    Rule {
        source: 0,
        target: 1,
        delay: 1,
        offset: 0,
    },
    Rule {
        source: 1,
        target: 2,
        delay: 1,
        offset: 0,
    },
    Rule {
        source: 2,
        target: 1,
        delay: 1,
        offset: 0,
    },
];

#[test]
fn builds_the_ring(rt: HostRuntime) -> Result<(), Fail> {
    let system = ring_system(rt.alloc())?;
    assert_eq!(rt; system.events(), 6);
    assert_eq!(rt; system.rules(), INVERTER_RING.as_slice());
    assert_eq!(rt; system.into_event(0), [4].as_slice());
    assert_eq!(rt; system.out_of_event(0), [1].as_slice());
    Ok(())
}

#[test]
fn lists_rules_in_rising_order(rt: HostRuntime) -> Result<(), Fail> {
    let system = System::build(rt.alloc(), 2, Vec::from_slice(rt.alloc(), &BOTH_WAYS)?)?;
    assert_eq!(rt; system.into_event(0), [0, 1].as_slice());
    assert_eq!(rt; system.into_event(1), [2, 3].as_slice());
    assert_eq!(rt; system.out_of_event(0), [0, 2].as_slice());
    assert_eq!(rt; system.out_of_event(1), [1, 3].as_slice());
    Ok(())
}

#[test]
fn keeps_the_numbers_of_a_cycle(rt: HostRuntime) -> Result<(), Fail> {
    let cycle = Cycle::of(vec![in rt.alloc(); 1, 2, 5, 0, 3, 4]?);
    assert_eq!(rt; cycle.list(), [1, 2, 5, 0, 3, 4].as_slice());
    Ok(())
}

#[test]
fn finds_first_cycles_plainly(rt: HostRuntime) -> Result<(), Fail> {
    let system = System::build(rt.alloc(), 2, Vec::from_slice(rt.alloc(), &BOTH_WAYS)?)?;
    let rows = [
        ([true, true, true, true], Some([0].as_slice())),
        ([false, true, true, true], Some([2, 1].as_slice())),
        ([false, false, true, true], Some([3].as_slice())),
        ([false, false, true, false], None),
    ];
    for (keep, want) in rows {
        let found = plain::first_cycle(rt.alloc(), &system, &keep)?;
        assert_eq!(rt; found.as_ref().map(|cycle| cycle.list()), want);
    }
    Ok(())
}

#[test]
fn orders_events(rt: HostRuntime) -> Result<(), Fail> {
    let rows = [
        (
            6,
            INVERTER_RING.as_slice(),
            Some([0, 3, 4, 1, 2, 5].as_slice()),
        ),
        (2, BOTH_WAYS.as_slice(), Some([0, 1].as_slice())),
        (3, DEAD_CYCLE.as_slice(), None),
        (0, [].as_slice(), Some([].as_slice())),
    ];
    for (events, rules, want) in rows {
        let system = System::build(rt.alloc(), events, Vec::from_slice(rt.alloc(), rules)?)?;
        let found = order(rt.alloc(), &system)?;
        assert_eq!(rt; found.as_deref(), want);
    }
    Ok(())
}

#[test]
fn finds_the_ring_plainly(rt: HostRuntime) -> Result<(), Fail> {
    ring_has_its_period();
    let system = ring_system(rt.alloc())?;
    assert!(rt; plain::is_period(66, 1, &system));
    let times = plain::arrivals(rt.alloc(), 66, 1, &system, 0)?;
    assert_eq!(rt; times.as_slice(), [0, 32, 44, 10, 22, 54].as_slice());
    Ok(())
}
