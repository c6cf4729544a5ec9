//! A shared word for each event of a system, which threads raise side by side to the weights of walks.
//!
//! The promise: each word stands for the weight of a walk from the root, and no word is below what a seat knows of its event. So
//! after the rules of a part are relaxed, a seat knows at each rule's target at least what it knew at the source and the rule's
//! weight, whatever other threads do meanwhile.
//!
//! The rule that holds between any two atomic steps is `specs/Rule.antt`; what contracts see of words and seats is `specs/Known.antt`.
//! Walks and weights are those of `rule_system`. A step's name in `src/steps.rt` is for the proof alone: it changes no word.
#![tactic(auto)]

mod key;
mod steps;
#[cfg(test)]
mod tests;
mod view;
mod word_table;
mod words;

pub use view::View;
pub use words::{RelaxSeat, Words};
