//! Slacks of isochronic forks.
//!
//! The promise: `slack` is the formula, exactly: the slow end's arrival, less the fast end's, and P times the offset, less k
//! times the margin, over the arrivals that are handed in and the period P/k.
//!
//! The formula is defined in `specs/Slack`. That the arrivals are those from the fork's own root is the matter of the crate
//! analysis. The limits that `slack` asks for keep the sum within 64 bits: widen none alone.
#![tactic(auto)]

mod slacks;
#[cfg(test)]
mod tests;

pub use slacks::{ForkOf, slack};
