//! Libraries of cells with their timing arcs, read from TOML.
//!
//! The promise: `Library::read` answers the cells that the definition of the format gives for the bytes, or the first of
//! L1 to L9 that holds, with its position. Cells are in the byte order of their names.
//!
//! The format is defined in `specs/Library`, what every library is in `specs/IsLibrary`. What a TOML document says is the
//! matter of the crates toml and toml_parser: no bytes of a library are read in another way. A `Library` is made by `read`
//! alone, so that what `sound` tells holds of each.
#![tactic(auto)]

mod cells;
mod checks;
mod faults;
pub mod laws;
mod libraries;
mod names_index;
mod reading;
pub mod samples;
mod senses;
mod shapes;
#[cfg(test)]
mod tests;

pub use cells::{Arcs, Cell, CellArc, Pins, Sense};
pub use faults::LibraryFault;
pub use libraries::Library;
pub use senses::EdgePair;
