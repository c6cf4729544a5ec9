//! A value that threads take in turn, by tickets, over the words and slots of `atomic_table`.
//!
//! The promise: there is one history. Each turn's value stands for a list that begins with all that the seat had seen and has
//! just those of the seat's entries that it made; what a seat gives back adds one entry of its own at the end; and the opening
//! seat, once it has joined the others, has seen the whole list. Nothing is said of waiting: that a turn comes is no promise.
//!
//! The rule that holds between any two atomic steps is `specs/Rule.antt`; what a seat knows is `src/view.rt` with `specs/Views.antt`,
//! and what contracts see of a seat and of a turn `specs/Seats.antt`. A step's name in `src/rule.rt` is for the proof alone: it
//! changes no word, so add none without its line in `specs/Steps.antt`.
#![tactic(auto)]

mod book;
mod rule;
mod stands;
mod view;

pub use book::{Book, BookSeat, Turn};
pub use stands::Stands;
pub use view::{Ended, Role, Stage, View};
