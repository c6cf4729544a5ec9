//! The laws of analyses. Each is the contract of a function that does nothing.
ghost use Rattle.std.specs.Prelude.{◌≡◌, ◌<◌, ◌≤◌, ℕ, All, List, [], ◌∷◌};
ghost use Rattle.fork_slack.specs.declared.slacks.ForkOf.{ForkOf};
ghost use Rattle.liveness_check.specs.Liveness.{IsFault};
ghost use Rattle.rule_system.specs.Bounds.{EventRules};
ghost use Rattle.rule_system.specs.Walks.{EndsBelow, IsConnected, IsLive};
ghost use Rattle.analysis.specs.declared.analyses.Analysis.{Analysis};
ghost use Rattle.analysis.specs.declared.faults.AnalyseFault.{AnalyseFault};
ghost use Rattle.analysis.specs.declared.faults.AnalyseFault.TheVariants.{Memory};
ghost use Rattle.analysis.specs.Analysis.{IsAnalysis};
ghost use Rattle.analysis.specs.Faults.{live_fault};
ghost use Rattle.analysis.specs.Forks.{IsFork};
ghost use Rattle.analysis.specs.InverterRing.{ring_analysis, ring_fork, ring_system};

use rule_system::inverter_ring::{
    ring_has_its_arrivals, ring_has_its_critical_cycle, ring_has_its_period,
};
use rule_system::laws::{
    arrival_is_unique, arrivals_are_unique, connected_systems_have_a_cycle,
    connected_systems_have_arrivals, critical_cycle_exists, critical_cycle_is_unique,
    dead_cycles_have_no_offset, live_systems_have_a_period, period_is_unique,
};

/// A system has at most one analysis from a root with its forks.
pub fn analysis_is_unique()
    ensures { (system : EventRules) (root : ℕ) (forks : List ForkOf) (analysis other : Analysis) →
        IsAnalysis system root forks analysis → IsAnalysis system root forks other → analysis ≡ other }
{
    period_is_unique();
    critical_cycle_is_unique();
    arrivals_are_unique();
    arrival_is_unique();
}

/// A system of at least two events that is connected from the root and live has one.
pub fn analysis_exists()
    ensures { (system : EventRules) (root : ℕ) (forks : List ForkOf) →
        EndsBelow system.events system.rules → 2 ≤ system.events → root < system.events →
        All (IsFork system.events) forks →
        IsConnected system.events system.rules root → IsLive system.rules →
        (analysis : Analysis) × IsAnalysis system root forks analysis }
{
    connected_systems_have_a_cycle();
    live_systems_have_a_period();
    connected_systems_have_arrivals();
    critical_cycle_exists();
}

/// And none of the faults V1 to V3 holds of a system that has one.
pub fn analyses_exclude_faults()
    ensures { (system : EventRules) (root : ℕ) (forks : List ForkOf) (analysis : Analysis) (fault : AnalyseFault) →
        IsAnalysis system root forks analysis →
        IsFault system.events system.rules root (live_fault fault) → fault ≡ Memory }
{
    dead_cycles_have_no_offset();
}

/// A ring of three inverters has its analysis, with the slack of a fork.
pub fn ring_has_its_analysis()
    ensures { IsAnalysis ring_system 0 (ring_fork ∷ []) ring_analysis }
{
    ring_has_its_period();
    ring_has_its_arrivals();
    ring_has_its_critical_cycle();
}
