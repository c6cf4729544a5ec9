//! The whole analysis of a repetitive system: its period, its critical cycle, the arrivals of its events and the slacks
//! of forks.
//!
//! The promise: `analyse` answers the analysis of just the system, the root and the forks that are handed in, by maxima
//! over all walks and all cycles, or the first of V1 to V3 that holds. A system has at most one analysis (`laws`).
//!
//! The analysis is defined in `specs/Analysis`, forks and slacks in `specs/Forks`; periods, arrivals and the critical cycle
//! in the crate rule_system. `analyse_from` has the same clauses for every start: let no clause speak of the start.
#![tactic(auto)]

mod analyses;
mod critical;
#[cfg(test)]
mod drawn_tests;
mod faults;
pub mod laws;
mod slacks;
#[cfg(test)]
mod tests;

pub use analyses::{Analysis, analyse, analyse_from};
pub use faults::AnalyseFault;
