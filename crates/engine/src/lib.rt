//! The top call of the program: words and files in, text and status out.
//!
//! The promise: one clause on a run, `IsRun`, the same for all commands, words, files and counts.
//!
//! What a command does is a course: the files that it opens in turn, what it reads in each, and what it writes in the end
//! (`specs/Courses`; each command's in `specs/Commands`). What a run may answer and leaves in the sink is defined for all courses
//! at once (`specs/Runs`), and so are the laws (`laws`). So a further command is a course and a module in `commands/`: it gets no
//! clause of its own, and `Runs` stays as it is.
#![tactic(auto)]

mod commands;
mod faults;
mod judging;
pub mod laws;
mod outcome;
mod scripts;
mod steps;
mod top;
mod words;
mod writing;

pub use faults::Fault;
pub use outcome::{Outcome, Written};
pub use session_run::Order;
pub use top::{answer, cyclone, serve};
pub use words::is_serve;
