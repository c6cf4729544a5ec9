//! The machine of sessions: what the replies of many sessions mean that edit, publish, pin and query versions of one netlist.
//!
//! The promise is laws of definitions alone. For every machine: along an order each session makes each of its calls once, the shared
//! ones in that order; so does a session alone that has a place for each of its shared calls; it looks at no place behind its last
//! one; and where each session publishes at its places what it publishes alone, all of them alone are the machine along that order.
//! Of the machine of sessions: a refused call leaves its session as it was and publishes nothing, a local call publishes nothing, and
//! no edit of a published version is refused.
//!
//! The definitions stand in `specs/`: orders in `Orders`, machines in `Machine`, one session alone in `Alone`, their laws in `Laws`,
//! none of which says what a call does; then the netlists of versions in `Versions`, each call in `Table`, and the machine of
//! sessions in `Sessions`. What is read of the analysis of a netlist is a parameter, `Readings`. Speak here of no row, thread or turn.
#![tactic(auto)]

mod laws;
mod replies;
mod worked_scripts;

pub use laws::{
    alone_is_the_machine, alone_looks_no_further, alone_makes_each_call, each_call_is_made,
    local_calls_publish_nothing, made_versions_have_netlists, netlists_stay, order_is_followed,
    refusals_change_nothing, sessions_are_one_order, sessions_make_each_call, versions_are_made,
};
pub use replies::{Refusal, Replies, Reply};
pub use worked_scripts::{
    first_refusal_is_told, queries_are_of_the_pin, refused_rebase_keeps_the_draft,
    sessions_take_turns, stale_is_told_last,
};
