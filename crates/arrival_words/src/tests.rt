// Words over a system of one net, and over a ring of three inverters.
ghost use Rattle.std.specs.Prelude.{◌≡◌, IfOk};
ghost use Rattle.rule_system.specs.Weights.{AreAttained, HasNoGain};
ghost use Rattle.arrival_words.specs.Samples.{one_net, one_net_start};

use crate::Words;
use cyc_num::Ratio;
use rule_system::inverter_ring::{ring_has_its_arrivals, ring_has_its_period, ring_system};
use rule_system::{Rule, System};
use std::alloc::{AllocError, Global};
use std::test::Fail;

// A net that drives itself, its events A+ A-.
const ONE_NET: [Rule; 4] = [
    Rule {
        source: 0,
        target: 0,
        delay: 7,
        offset: 1,
    },
    Rule {
        source: 1,
        target: 0,
        delay: 7,
        offset: 1,
    },
    Rule {
        source: 0,
        target: 1,
        delay: 5,
        offset: 0,
    },
    Rule {
        source: 1,
        target: 1,
        delay: 5,
        offset: 1,
    },
];

fn one_net_system(alloc: Global) -> Result<System, AllocError>
    ensures { IfOk result (λ s. s ≡ record { events = 2; rules = one_net }) }
{
    System::build(alloc, 2, Vec::from_slice(alloc, &ONE_NET)?)
}

// At 12/1 no cycle of the one net gains, and its start values are weights of walks.
fn one_net_can_be_opened()
    ensures no_gain { HasNoGain 12 1 one_net }
    ensures start { AreAttained 12 1 2 one_net 0 one_net_start }
{}

#[test]
fn what_one_seat_raises_another_reads(rt: HostRuntime) -> Result<(), Fail> {
    one_net_can_be_opened();
    let system = one_net_system(rt.alloc())?;
    let (words, mut first) = Words::open(rt.alloc(), &system, 0, Ratio::of(12, 1), &[0, -2])?;
    let mut second = words.split(&mut first);
    words.relax(&mut first, 0, 4);
    assert_eq!(rt; words.read(&mut second, 1), 5);
    Ok(())
}

#[test]
fn two_seats_relax_the_ring(rt: HostRuntime) -> Result<(), Fail> {
    ring_has_its_period();
    ring_has_its_arrivals();
    let system = ring_system(rt.alloc())?;
    let times = [0, 32, 44, 10, 22, 54];
    let (words, mut first) = Words::open(rt.alloc(), &system, 0, Ratio::of(66, 1), &times)?;
    let mut second = words.split(&mut first);
    words.relax(&mut first, 0, 3);
    words.relax(&mut second, 3, 6);
    words.join(&mut first, second);
    assert_eq!(rt; words.read(&mut first, 0), 0);
    assert_eq!(rt; words.read(&mut first, 1), 32);
    assert_eq!(rt; words.read(&mut first, 5), 54);
    Ok(())
}
