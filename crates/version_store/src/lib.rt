//! A hall of versions: rows in the order in which they were published, and an entry for each call that asked for one.
//!
//! The promise: each of the four calls adds just one entry at the end, whatever it answers; rows change only where a publish is
//! answered Ok; each row follows the row before it. A hall is what the turn book's value stands for: its base row with the number of
//! calls, and a list of items, each an entry with the row that it appended, if any.
//!
//! In a turn it has room for a call, keeps its origin, and has the rows of all turns before it at their numbers.
//!
//! What contracts see is `src/state.rt` with the words of `specs/Halls.antt`; the answers' words are in `specs/Answers.antt`. The hall
//! keeps its rows and its entries beside each other: that they give the items is the type's invariant, `IsKept`. Room for all of them
//! is taken when a hall is opened, and is to stay so: then `publish` and `pass` take no memory.
#![tactic(auto)]

#[cfg(test)]
mod book_tests;
mod entry;
mod faults;
mod follows;
mod hall;
mod laws;
mod state;
#[cfg(test)]
mod tests;

pub use entry::{HallAct, HallEntry};
pub use faults::{HallFault, PinFault};
pub use follows::Follows;
pub use hall::{Hall, MOST_ROWS, Pin};
pub use laws::{calls_keep_the_origin, rows_are_known_again, turns_find_room};
pub use state::{HallItem, HallOrigin, HallState};
