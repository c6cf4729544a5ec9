//! The laws of findings. Each is the contract of a function that does nothing.
ghost use Rattle.std.specs.Prelude.{◌≡◌, List};
ghost use Rattle.cell_arcs.specs.IsLibrary.{IsLibrary};
ghost use Rattle.cell_arcs.specs.declared.cells.Cell.{Cell};
ghost use Rattle.netlist_model.specs.Circuit.{Circuit};
ghost use Rattle.netlist_model.specs.Sound.{IsNetlist};
ghost use Rattle.netlist_analysis.specs.Findings.{Finding, IsFinding, IsTelling};

use analysis::laws::{analysis_exists, analysis_is_unique};
use event_expand::laws::rules_are_within;
use liveness_check::laws::{
    first_fault_is_unique, sound_systems_have_no_fault, systems_are_sound_or_at_fault,
};

/// The analysis of a netlist finds at most one thing.
pub fn finding_is_unique()
    ensures { (library : List Cell) (c : Circuit) (finding other : Finding) →
        IsFinding library c finding → IsFinding library c other → finding ≡ other }
{
    analysis_is_unique();
    first_fault_is_unique();
    sound_systems_have_no_fault();
}

/// And it finds one, of each netlist such as the type can hold, over each library.
pub fn netlists_have_a_finding()
    ensures { (library : List Cell) (c : Circuit) → IsLibrary library → IsNetlist c →
        (finding : Finding) × IsFinding library c finding }
{
    systems_are_sound_or_at_fault();
    analysis_exists();
    rules_are_within();
}

/// What is found can be told of all netlists at once: over each library there is a function that tells it.
pub fn tellings_exist()
    ensures { (library : List Cell) → IsLibrary library →
        (tell : Circuit → Finding) × IsTelling library tell }
{
    netlists_have_a_finding();
}

/// And two such functions agree at each netlist.
pub fn tellings_agree()
    ensures { (library : List Cell) (tell other : Circuit → Finding) →
        IsTelling library tell → IsTelling library other →
        (c : Circuit) → IsNetlist c → tell c ≡ other c }
{
    finding_is_unique();
}
