//! Numbers of events that rise along each rule by at least its weight, first numbers for a search, and arrivals.
//!
//! The promise: `Plain`, and every maker that keeps the clauses of `ArrivalMaker`, finds the arrivals, the greatest weights over
//! all walks from a root; `feasible` is true exactly where the numbers rise so; `first_weights` are weights of walks.
//!
//! Arrivals and feasible numbers are defined in the crate rule_system (`Weights`), weights of paths in `specs/Times`. The folder
//! `search/` proposes walks and promises nothing but an end; it is public for the crate cycle_ratio. What it proposes is followed
//! and tested by proved code: let no proof lean on it.
#![tactic(auto)]

mod checks;
mod makers;
mod rounds;
pub mod search;
mod starts;
#[cfg(test)]
mod tests;
mod times;
mod trees;

pub use checks::feasible;
pub use makers::{ArrivalMaker, Plain};
pub use starts::{first_weights, first_weights_by};
pub use times::Times;
