//! The texts that the program writes: the rules of a system, the report of an analysis, the result of a ring, the line of a fault, and
//! the replies of sessions.
//!
//! The promise: each text is that of its definition, byte for byte.
//!
//! The definitions stand in `specs/`, a file for each text; the pieces that several have in `Pieces`. They are what a user's files of
//! results look like: a change of a byte there is a change of the format, and belongs in docs/FORMATS.md as well.
#![tactic(auto)]

mod benches;
mod fault_lines;
mod faults;
mod netlist_lines;
mod pieces;
mod replies;
#[cfg(test)]
mod reply_tests;
mod reports;
mod rules;
mod serves;
#[cfg(test)]
mod tests;

pub use benches::bench_text;
pub use fault_lines::fault_text;
pub use faults::{FaultLine, Names, Source};
pub use netlist_lines::netlist_line;
pub use reports::report_text;
pub use rules::rules_text;
pub use serves::serve_text;
pub use session_machine::{Refusal, Replies, Reply};
