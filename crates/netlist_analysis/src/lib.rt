//! The analysis of a netlist: whether it is whole, its expansion, and the analysis of its system from its root with its forks.
//!
//! The promise: `analyse_netlist` answers the netlist's system with its analysis, by maxima over all walks, or the first fault
//! that holds, in the order whole check, unreached, no return, dead.
//!
//! What is found is defined in `specs/Findings`; each netlist that fits a library has just one finding (`laws`), and what sessions
//! are told rests on that. So a further fault takes its place in the one order, and says that those before it do not hold.
#![tactic(auto)]

mod analysed;
mod faults;
pub mod laws;

pub use analysed::{Analysed, analyse_netlist, analyse_netlist_from};
pub use faults::{EventList, NetlistFault};
