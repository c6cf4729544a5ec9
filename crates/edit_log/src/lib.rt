//! Lists of edits: made in turn, and copied.
//!
//! The promise: `apply` gives the netlist that a list of edits makes of another, which stays as it was, or the position of the
//! first edit that is refused, with its fault.
//!
//! What edits in turn make is defined where an edit is (`Edits` of the crate netlist_model), the first refused edit in
//! `specs/FirstRefused`. Versions rest on the laws here: two lists after one another are their join, and a refusal in the second
//! is counted on from the first. What one edit does belongs in netlist_model.
#![tactic(auto)]

pub mod laws;
mod lists;

pub use lists::{apply, copy_edits};
pub use netlist_model::{EditFault, Edits};
