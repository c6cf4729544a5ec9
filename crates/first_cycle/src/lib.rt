//! The first cycle of a set of rules, and how many rules it takes to an event and from one, in time linear in events and rules.
//!
//! The promise: `first_cycle` answers the first cycle of the kept rules, and none exactly where they have no cycle;
//! `levels_to` and `levels_from` say how many kept rules it takes to an event and from it at least.
//!
//! Which cycle is the first is defined in the crate rule_system (`FirstCycle`), levels in `specs/Levels`. The numbers of
//! components in `components.rt` are not proved: each use tests them (`numbers.rt`), and poor ones cost time alone.
#![tactic(auto)]

mod components;
mod levels;
mod numbers;
mod search;
mod steps;
#[cfg(test)]
mod tests;

pub use levels::{levels_from, levels_to};
pub use search::first_cycle;
