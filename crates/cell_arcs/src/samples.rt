//! The definition of a library, computed on known texts.
ghost use Rattle.std.specs.Prelude.{◌≡◌, Ok, Err};
ghost use Rattle.cell_arcs.specs.Library.{library_of};
ghost use Rattle.cell_arcs.specs.Samples.{ring_text, ring_cells, no_value_text, equal_pins_text};
ghost use Rattle.cell_arcs.specs.declared.faults.LibraryFault.TheVariants.{BadToml, RepeatedPin};

/// The library of the Muller ring has its two cells.
pub fn ring_library_is_accepted()
    ensures { library_of ring_text ≡ Ok ring_cells }
{}

/// A key without a value is no TOML document.
pub fn missing_value_is_refused()
    ensures { library_of no_value_text ≡ Err BadToml }
{}

/// Of two inputs of one name the second is told.
pub fn equal_pins_are_refused()
    ensures { library_of equal_pins_text ≡ Err (RepeatedPin 1 2) }
{}
