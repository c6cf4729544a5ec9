//! The laws of faults. Each is the contract of a function that does nothing.
ghost use Rattle.std.specs.Prelude.{◌≡◌, ◌≢◌, ◌<◌, ◌⊎◌, ℕ, List};
ghost use Rattle.rule_system.specs.declared.rules.Rule.{Rule};
ghost use Rattle.rule_system.specs.Walks.{EndsBelow, IsConnected, IsLive};
ghost use Rattle.liveness_check.specs.declared.faults.LiveFault.{LiveFault};
ghost use Rattle.liveness_check.specs.declared.faults.LiveFault.TheVariants.{Memory};
ghost use Rattle.liveness_check.specs.Liveness.{IsFault};

use rule_system::laws::{
    dead_cycles_have_no_offset, first_cycle_is_unique, kept_cycles_have_a_first,
    short_walks_weigh_most, systems_without_dead_cycles_are_live,
};

/// Of the faults V1 to V3 at most one holds of a system, at one event or of one cycle.
pub fn first_fault_is_unique()
    ensures { (events : ℕ) (rules : List Rule) (root : ℕ) (fault other : LiveFault) →
        IsFault events rules root fault → IsFault events rules root other →
        fault ≢ Memory → other ≢ Memory → fault ≡ other }
{
    first_cycle_is_unique();
}

/// None of them holds of a system that is connected from the root and live.
pub fn sound_systems_have_no_fault()
    ensures { (events : ℕ) (rules : List Rule) (root : ℕ) (fault : LiveFault) →
        IsConnected events rules root → IsLive rules →
        IsFault events rules root fault → fault ≡ Memory }
{
    dead_cycles_have_no_offset();
}

/// A system is connected from the root and live, or one of them holds of it.
pub fn systems_are_sound_or_at_fault()
    ensures { (events : ℕ) (rules : List Rule) (root : ℕ) →
        EndsBelow events rules → root < events →
        (IsConnected events rules root × IsLive rules)
        ⊎ ((fault : LiveFault) × IsFault events rules root fault × (fault ≢ Memory)) }
{
    short_walks_weigh_most();
    kept_cycles_have_a_first();
    systems_without_dead_cycles_are_live();
}
