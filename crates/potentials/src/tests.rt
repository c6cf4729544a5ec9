//! Arrivals of the inverter ring, and first numbers.
use crate::search::Reduced;
use crate::{ArrivalMaker, Plain, Times, feasible, first_weights};
use cyc_num::Ratio;
use rule_system::inverter_ring::{ring_has_its_period, ring_system};
use std::test::Fail;

#[test]
fn arrivals_of_the_ring(rt: HostRuntime) -> Result<(), Fail> {
    ring_has_its_period();
    let system = ring_system(rt.alloc())?;
    let period = Ratio::of(66, 1);
    let arrivals = [0, 32, 44, 10, 22, 54];
    assert!(rt; feasible(&system, period, &arrivals));
    assert!(rt; !feasible(&system, Ratio::of(65, 1), &arrivals));
    let first = first_weights(rt.alloc(), &system, 0, period)?;
    assert_eq!(rt; first.list(), arrivals.as_slice());
    let reduced = Reduced::at(rt.alloc(), &system, period)?;
    let found = Plain.arrivals(&rt, rt.alloc(), &system, 0, period, &reduced)?;
    assert_eq!(rt; found.list(), arrivals.as_slice());
    let lists = Plain.arrivals_each(&rt, rt.alloc(), &system, &[0, 0], period, &reduced)?;
    assert_eq!(rt; lists.len(), 2);
    for list in &lists {
        assert_eq!(rt; list.list(), arrivals.as_slice());
    }
    Ok(())
}

#[test]
fn a_list_of_its_items(rt: HostRuntime) -> Result<(), Fail> {
    let times = Times::of(vec![in rt.alloc(); -1, 0, 1]?);
    assert_eq!(rt; times.list(), [-1, 0, 1].as_slice());
    Ok(())
}
