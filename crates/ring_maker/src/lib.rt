//! Muller rings of any size, as netlists in canonical text, with the library of their two cells.
//!
//! The promise: the texts are those of the definitions, byte for byte, for every number of stages from 3 to 4,096.
//!
//! The definitions stand in `specs/Ring`. A ring is known by its number of stages alone, so its text is the same at each run; what
//! reads and judges it are the crates that read files. That the two texts are accepted is no promise: tests show it of some rings.
#![tactic(auto)]

mod cells;
mod rings;
#[cfg(test)]
mod tests;

pub use cells::RingCells;
pub use rings::muller_ring;
