//! What the definition of a library finds, in words of its own.
//! Each law is the contract of a function that does nothing: a call makes it known where it stands.
ghost use Rattle.std.specs.Prelude.{◌≡◌, ◌≢◌, ℕ, List, Ok, Err};
ghost use Rattle.cell_arcs.specs.Shape.{ArcShape};
ghost use Rattle.cell_arcs.specs.Firsts.{FindsFirstBadName, FindsFirstRepeat, FindsFirstRepeatedSource};
ghost use Rattle.cell_arcs.specs.IsLibrary.{IsLibrary};
ghost use Rattle.cell_arcs.specs.Library.{library_of};
ghost use Rattle.cell_arcs.specs.declared.cells.Cell.{Cell};
ghost use Rattle.cell_arcs.specs.declared.faults.LibraryFault.TheVariants.{Memory};

/// Either all pins are names, or the position told is that of the first pin that is none.
pub fn first_bad_name()
    ensures { (pins : List (List ℕ)) → FindsFirstBadName pins }
{}

/// Either all pins differ, or the position told is that of the first pin that equals an earlier one.
pub fn first_repeated_pin()
    ensures { (pins : List (List ℕ)) → FindsFirstRepeat pins }
{}

/// Accepted arcs have different sources, and a repeated arc is the first whose source an earlier arc has, by name.
pub fn first_repeated_source()
    ensures { (n : ℕ) (inputs : List (List ℕ)) (arcs : List ArcShape) → FindsFirstRepeatedSource n inputs arcs }
{}

/// Whatever bytes are accepted write a library, and no refusal is want of memory.
pub fn libraries_are_sound()
    ensures accepted { (bytes : List ℕ) (library : List Cell) → library_of bytes ≡ Ok library → IsLibrary library }
    ensures refused { (bytes : List ℕ) → library_of bytes ≢ Err Memory }
{}
