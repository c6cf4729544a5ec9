//! The period of a live system: the greatest ratio of delay to offset over all cycles.
//!
//! The promise: `greatest` answers the period and a cycle that attains it. `greatest_from` does so for every start.
//!
//! The folder `search/` proposes a cycle and promises nothing but an end; what it proposes is tested by proved code, and where
//! it does not hold, a proved search goes on from there. Let no proof lean on what `search/` gives.
//!
//! The period is defined in the crate rule_system (`Weights`), cycles that are short in `specs/Cycles`.
#![tactic(auto)]

mod checking;
mod gains;
mod periods;
mod raising;
mod search;
#[cfg(test)]
mod tests;

pub use periods::{Found, greatest, greatest_from};
