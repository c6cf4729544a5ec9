//! A search for the period whose answer is checked where it is used: nothing is promised here but an end.

mod cycles;
mod evaluation;
mod goals;
mod improvement;
mod policy;

pub use improvement::{Proposal, numbers_of, propose};
