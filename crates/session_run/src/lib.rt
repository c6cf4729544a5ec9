//! Sessions over the versions of one netlist, from their scripts to their replies.
//!
//! The promise: a driver answers an order of the sessions' shared calls, and the replies that the calls of all sessions get when they are
//! made one at a time along it (`AreServed` of the crate query_replies).
//!
//! A session on its way through its script is defined in `specs/Going`. In turn, on one thread: a session over a hall in
//! `specs/Playing`, all of them in `specs/InTurn`. On threads of their own, over a book: a turn of a seat in `specs/Seats`, a session
//! over a seat in `specs/Serving`, all of them in `specs/Jobs`, and their order in `specs/Filled`.
//!
//! The proof goes by each session alone: the law that ties sessions to one order is the crate session_machine's. Let no proof here
//! speak of two sessions at once.
#![tactic(auto)]

mod counting;
mod drive;
mod play;
mod players;
mod rounds;
mod served;
mod threads;

pub use counting::total_calls;
pub use drive::serve_in_turn;
pub use served::{Order, ReplyLists, Served};
pub use threads::ran::Ran;
pub use threads::serve::serve_session;
pub use threads::{serve_sessions, serve_threads};
