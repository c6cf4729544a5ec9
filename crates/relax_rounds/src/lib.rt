//! Arrivals by rounds of workers, which relax parts of a system's rules side by side on shared words.
//!
//! The promise: for every number of workers from 1 to 64 and whatever threads do meanwhile, `Rounds` finds the arrivals, the
//! greatest weights over all walks from the root. A round leaves a seat that knows at each rule's target at least what it knew
//! at the source and the rule's weight; as many rounds as there are events suffice, and a seat then knows just the arrivals.
//! That workers run beside each other is no promise: a test shows it.
//!
//! What clauses say of rounds and parts stands in `specs/`; words and seats are those of `arrival_words`. Rounds are counted by
//! `Steps`, which takes no bytes: add no other way to raise it than `tick`.
#![tactic(auto)]

mod parts;
mod reads;
mod rounds;
mod steps;
#[cfg(test)]
mod tests;

pub use rounds::Rounds;
pub use steps::Steps;
