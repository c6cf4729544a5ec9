//! A ring of three inverters, and the laws at work on it.
ghost use Rattle.std.specs.Prelude.{◌≡◌, [], ◌∷◌, IfOk};
ghost use Rattle.rule_system.specs.InverterRing.{inverter_ring, ring_times};
ghost use Rattle.rule_system.specs.Walks.{IsConnected, IsLive};
ghost use Rattle.rule_system.specs.Weights.{IsPeriod, AreArrivals, is_tight};
ghost use Rattle.rule_system.specs.FirstCycle.{IsFirstCycle};
ghost use Rattle.rule_system.specs.CriticalCycle.{IsCriticalCycle};

use crate::{Rule, System};
use std::alloc::{AllocError, Global};

// Its events are A+ A- B+ B- C+ C-.
pub(crate) const INVERTER_RING: [Rule; 6] = [
    Rule {
        source: 1,
        target: 2,
        delay: 12,
        offset: 0,
    },
    Rule {
        source: 0,
        target: 3,
        delay: 10,
        offset: 0,
    },
    Rule {
        source: 3,
        target: 4,
        delay: 12,
        offset: 0,
    },
    Rule {
        source: 2,
        target: 5,
        delay: 10,
        offset: 0,
    },
    Rule {
        source: 5,
        target: 0,
        delay: 12,
        offset: 1,
    },
    Rule {
        source: 4,
        target: 1,
        delay: 10,
        offset: 0,
    },
];

/// The ring's system: each inverter rises in 12 picoseconds and falls in 10.
pub fn ring_system(alloc: Global) -> Result<System, AllocError>
    ensures { IfOk result (λ s. s ≡ record { events = 6; rules = inverter_ring }) }
{
    System::build(alloc, 6, Vec::from_slice(alloc, &INVERTER_RING)?)
}

/// The ring is connected from its first event and live, and its period is 66.
pub fn ring_has_its_period()
    ensures connected { IsConnected 6 inverter_ring 0 }
    ensures live { IsLive inverter_ring }
    ensures period { IsPeriod inverter_ring 66 1 }
{}

/// Its arrivals.
pub fn ring_has_its_arrivals()
    ensures { AreArrivals 66 1 6 inverter_ring 0 ring_times }
{}

/// The first cycle of the rules that are tight for its arrivals.
pub fn ring_has_its_cycle()
    ensures { IsFirstCycle inverter_ring (is_tight 66 1 inverter_ring ring_times) (1 ∷ 2 ∷ 5 ∷ 0 ∷ 3 ∷ 4 ∷ []) }
{}

/// Its critical cycle from its first event: once round, through all six rules.
pub fn ring_has_its_critical_cycle()
    ensures { IsCriticalCycle 66 1 6 inverter_ring 0 (1 ∷ 2 ∷ 5 ∷ 0 ∷ 3 ∷ 4 ∷ []) }
{}
