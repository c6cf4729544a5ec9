//! Whether a system is connected from its root and live, or the event or cycle that shows why not.
//!
//! The promise: `check` is Ok only where walks lead from the root to each event and back and every cycle has an offset; else it
//! answers the first of V1 to V3 that holds. At most one of them holds of a system (`laws`).
//!
//! The faults are defined in `specs/Liveness`, in the order in which they are told; walks and live systems in the crate
//! rule_system. That only one fault holds rests on this order, so each fault says that those before it do not hold.
#![tactic(auto)]

mod faults;
pub mod laws;
mod liveness;
mod search;
mod shown;
#[cfg(test)]
mod tests;

pub use faults::LiveFault;
pub use liveness::check;
