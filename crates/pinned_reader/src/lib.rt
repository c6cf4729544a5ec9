//! Versions of a netlist with their analyses, and the queries on them.
//!
//! The promise: a `Row` is right by its type. Its netlist fits its library, its system is the netlist's expansion, and its analysis
//! is the analysis of that system. `Row::base` and `Row::next` answer such a row, or the first fault of just that netlist. The
//! queries of `Pinned` answer the values of the analysis of the row's netlist.
//!
//! What a row is, and when it follows another, is defined in `specs/Rows`; what the queries answer in `specs/Queries`. The analysis of
//! a netlist is defined in the crate netlist_analysis. A row is made by `base` and `next` alone: its parts are never changed.
#![tactic(auto)]

mod queries;
mod rows;
#[cfg(test)]
mod tests;

pub use netlist_analysis::{EventList, NetlistFault as RowFault};
pub use queries::Pinned;
pub use rows::Row;
