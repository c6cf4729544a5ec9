//! Netlists as tables with look-ups by name, and the statements that build them.
//!
//! The promise: each statement answers the first refusal of its definition, and leaves the netlist as it was, or has the
//! definition's effect on the whole netlist and no other.
//!
//! A netlist as lists is defined in `specs/Circuit`, statements in `Statements` and `Deletions`, edits in `Edits`, what every netlist
//! is in `Sound`, the rules in `Expansion`, the whole check in `Whole`. The tables are private: what can fail is done before anything
//! changes, and the hints of `hints.rt` promise nothing and are looked at each time.
#![tactic(auto)]

mod counting;
mod drivers;
mod edits;
mod faults;
mod forks;
mod hints;
mod instances;
mod keys;
pub mod laws;
mod names;
mod netlist;
mod pair_table;
mod pairs;
mod parts;
mod ticks;
mod uses;
mod whole;
mod wiring;
mod words;

pub use edits::{DelayOf, Edit, Edits, ForkText, InstOf, MoveOf, SwapOf, TickOf};
pub use faults::{EditFault, StatementFault, WholeFault};
pub use netlist::Netlist;
pub use parts::{Delay, Delays, EventName, Fork, Instance, NetRef, NetRefs, PinNet, PinNets, Tick};
pub use words::{EventWord, PinWord};
