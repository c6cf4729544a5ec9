//! What sessions are told of the analysis of a netlist: the replies to queries, and why a draft is no version.
//!
//! The promise: each reply is read of the analysis of the pinned row's netlist, by maxima over all walks, and each refusal is the first
//! fault of the netlist.
//!
//! What is read is defined in `specs/Readings`, the answers of whole runs in `specs/Served`; the finding of a netlist in the crate
//! netlist_analysis. Of each library there are such findings of all netlists, and just one (`laws`). No clause here names what a row
//! keeps beside its netlist: all is said of the analysis of that netlist.
#![tactic(auto)]

pub mod laws;
mod queries;
mod refusals;

pub use queries::{arrival_reply, cycle_reply, period_reply, report_reply, slack_reply};
pub use refusals::net_refusal;
