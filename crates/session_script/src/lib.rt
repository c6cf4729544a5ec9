//! Scripts of sessions: the calls of a session, one a line.
//!
//! The promise: `read` answers the calls that the lines say, or the first line at fault.
//!
//! The definitions stand in `specs/`: which calls are shared in `Calls`, what a line says in `ScriptLines`, a whole script in `Scripts`;
//! the laws say of `Scripts` exactly when it accepts and exactly when it refuses. What an edit line says is the crate
//! netlist_reader's: read no line here that it reads.
#![tactic(auto)]

mod calls;
mod faults;
mod laws;
mod lines;
mod scripts;
#[cfg(test)]
mod tests;

pub use calls::{Call, Script};
pub use faults::ScriptFault;
pub use laws::{
    accepted_scripts_say_their_calls, first_faulty_line_is_told, first_faulty_line_refuses,
    said_calls_are_read,
};
pub use scripts::read;
