// Rounds of workers over a ring of three inverters.
ghost use Rattle.std.specs.Prelude.{◌<◌, ◌≤◌};

use crate::Rounds;
use cyc_num::Ratio;
use cyc_port::{Gate, OpenGate};
use potentials::search::Reduced;
use potentials::{ArrivalMaker, Times};
use rule_system::inverter_ring::{ring_has_its_period, ring_system};
use std::alloc::{AllocError, Global};
use std::hint;
use std::sync::atomic::{AtomicU64, Ordering};
use std::test::Fail;
use std::thread::Threads;

// The ring's arrivals, found by so many workers.
fn ring_arrivals<R: Threads + Sync>(
    rt: &R,
    alloc: Global,
    workers: u32,
    gate: &(dyn Gate + Sync),
) -> Result<Times, AllocError>
    requires some { 0 < workers }
    requires few { workers ≤ 64 }
{
    ring_has_its_period();
    let system = ring_system(alloc)?;
    let period = Ratio::of(66, 1);
    let reduced = Reduced::at(alloc, &system, period)?;
    let rounds = Rounds {
        workers,
        gate: &gate,
    };
    rounds.arrivals(rt, alloc, &system, 0, period, &reduced)
}

#[test]
fn several_roots_are_answered_each(rt: HostRuntime) -> Result<(), Fail> {
    ring_has_its_period();
    let alloc = rt.alloc();
    let system = ring_system(alloc)?;
    let period = Ratio::of(66, 1);
    let reduced = Reduced::at(alloc, &system, period)?;
    let gate: &(dyn Gate + Sync) = &OpenGate;
    let rounds = Rounds {
        workers: 2,
        gate: &gate,
    };
    let lists = rounds.arrivals_each(&rt, alloc, &system, &[0, 0], period, &reduced)?;
    assert_eq!(rt; lists.len(), 2);
    for list in &lists {
        assert_eq!(rt; list.list(), [0, 32, 44, 10, 22, 54].as_slice());
    }
    Ok(())
}

#[test]
fn any_number_of_workers_finds_the_arrivals(rt: HostRuntime) -> Result<(), Fail> {
    let times = [0, 32, 44, 10, 22, 54];
    assert_eq!(rt;
        ring_arrivals(&rt, rt.alloc(), 1, &OpenGate)?.list(),
        times.as_slice()
    );
    assert_eq!(rt;
        ring_arrivals(&rt, rt.alloc(), 2, &OpenGate)?.list(),
        times.as_slice()
    );
    assert_eq!(rt;
        ring_arrivals(&rt, rt.alloc(), 64, &OpenGate)?.list(),
        times.as_slice()
    );
    Ok(())
}

// Holds the workers 1 and 2 until both have come. It gives up after so many turns, and notes it.
#[derive(Drop)]
struct Meeting {
    first: AtomicU64,
    second: AtomicU64,
    others: AtomicU64,
    given_up: AtomicU64,
}

impl Gate for Meeting {
    fn pass(&self, who: u64) {
        let came = match who {
            1001 => &self.first,
            1002 => &self.second,
            _ => &self.others,
        };
        came.fetch_add(1, Ordering::SeqCst);
        'turns: for _ in 0..1_000_000_000u64 {
            if self.first.load(Ordering::SeqCst) > 0 && self.second.load(Ordering::SeqCst) > 0 {
                return;
            }
            hint::spin_loop();
        }
        self.given_up.fetch_add(1, Ordering::SeqCst);
    }
}

#[test]
fn two_workers_run_at_once(rt: HostRuntime) -> Result<(), Fail> {
    let gate = Meeting {
        first: AtomicU64::new(0),
        second: AtomicU64::new(0),
        others: AtomicU64::new(0),
        given_up: AtomicU64::new(0),
    };
    let found = ring_arrivals(&rt, rt.alloc(), 2, &gate)?;
    assert_eq!(rt; found.list(), [0, 32, 44, 10, 22, 54].as_slice());
    assert_eq!(rt; gate.given_up.load(Ordering::SeqCst), 0);
    assert!(rt; gate.first.load(Ordering::SeqCst) > 0);
    assert!(rt; gate.second.load(Ordering::SeqCst) > 0);
    assert_eq!(rt; gate.others.load(Ordering::SeqCst), 0);
    Ok(())
}
