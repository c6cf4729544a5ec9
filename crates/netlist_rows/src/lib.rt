//! The rows of statement calls, netlist files and lists of edits, as tests.
//!
//! It promises nothing itself and defines nothing: what the calls promise stands in `netlist_model`, `netlist_reader` and
//! `edit_log`. The rows stand here, since the gate proves a crate twice where it has tests, and this one has nothing else.
//!
//! Netlists, libraries and edits are let go by `drop`, and that is to stay: their destructor is then proved once, and not again
//! at each way out of each function that owns one.
#![tactic(auto)]

#[cfg(test)]
mod edits;
#[cfg(test)]
mod files;
#[cfg(test)]
mod statements;
#[cfg(test)]
mod written;
