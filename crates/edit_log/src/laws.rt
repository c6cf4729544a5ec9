//! What edits in turn make, in words of their own.
//! A law is the contract of a function that does nothing: a call makes it known where it stands.
ghost use Rattle.std.specs.Prelude.{◌≡◌, ◌≢◌, ℕ, ◌+◌, ◌++◌, List, length, Ok, Err};
ghost use Rattle.cell_arcs.specs.declared.cells.Cell.{Cell};
ghost use Rattle.edit_log.specs.FirstRefused.{IsFirstRefused};
ghost use Rattle.netlist_model.specs.Circuit.{Circuit};
ghost use Rattle.netlist_model.specs.Edits.{edited};
ghost use Rattle.netlist_model.specs.Sound.{Fits, IsNetlist};
ghost use Rattle.netlist_model.specs.declared.edits.Edit.{Edit};
ghost use Rattle.netlist_model.specs.declared.faults.EditFault.TheVariants.{At, Memory};
ghost use Rattle.netlist_model.specs.declared.faults.StatementFault.{StatementFault};
ghost use Rattle.netlist_model.specs.declared.faults.StatementFault.TheVariants as statement;

use netlist_model::laws::edits_keep_netlists;

/// Two lists of edits after one another are their join: what the second makes of what the first made, the join makes; a
/// refusal in the first is the join's, and a position refused in the second is counted on from the first.
pub fn edits_are_joined()
    ensures made { (library : List Cell) (c m d : Circuit) (one other : List Edit) →
        edited library one c ≡ Ok m → edited library other m ≡ Ok d → edited library (one ++ other) c ≡ Ok d }
    ensures first { (library : List Cell) (c : Circuit) (one other : List Edit) (n : ℕ) (e : StatementFault) →
        edited library one c ≡ Err (At n e) → edited library (one ++ other) c ≡ Err (At n e) }
    ensures second { (library : List Cell) (c m : Circuit) (one other : List Edit) (n : ℕ) (e : StatementFault) →
        edited library one c ≡ Ok m → edited library other m ≡ Err (At n e) →
        edited library (one ++ other) c ≡ Err (At (length one + n) e) }
{}

/// The position that is told is that of the first refused edit: those before it are made, and it is refused on what they left.
pub fn first_edit_refuses()
    ensures { (library : List Cell) (c : Circuit) (edits : List Edit) (n : ℕ) (e : StatementFault) →
        edited library edits c ≡ Err (At n e) → IsFirstRefused library edits c n e }
{}

/// Edits in turn make a netlist of a netlist that fits the library, and one that fits it; none is refused for want of memory.
pub fn edited_netlists_are_sound()
    ensures netlist { (library : List Cell) (c d : Circuit) (edits : List Edit) →
        IsNetlist c → Fits library c.insts → edited library edits c ≡ Ok d → IsNetlist d }
    ensures fits { (library : List Cell) (c d : Circuit) (edits : List Edit) →
        Fits library c.insts → edited library edits c ≡ Ok d → Fits library d.insts }
    ensures refused { (library : List Cell) (c : Circuit) (edits : List Edit) → edited library edits c ≢ Err Memory }
    ensures statements { (library : List Cell) (c : Circuit) (edits : List Edit) (n : ℕ) →
        edited library edits c ≢ Err (At n statement.Memory) }
{
    edits_keep_netlists();
}
