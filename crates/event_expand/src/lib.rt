//! A netlist is expanded to its event-rule system (Burns 1991), in pieces side by side, and its forks to those of the system.
//!
//! The promise: `expand` gives two events for each net with events and just the rules of the definition, in its order;
//! `forks_of` gives the netlist's forks as forks of that system.
//!
//! The rules of a netlist are defined in the crate netlist_model (`Expansion`), as a system in `specs/Systems`. Rules are known by
//! their places in this order, in reports too: a piece is a run of consecutive instances, and pieces are joined in order.
#![tactic(auto)]

mod arcs;
mod expansion;
mod forks;
mod instances;
pub mod laws;
#[cfg(test)]
mod tests;

pub use expansion::expand;
pub use forks::forks_of;
