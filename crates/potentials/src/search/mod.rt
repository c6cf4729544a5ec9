//! Searches whose answers are checked where they are used: nothing is promised here but an end.

mod dijkstra;
mod heights;
mod links;
mod pending;
mod places;
mod reduced;
mod scale;
mod spread;

pub use heights::Heights;
pub use links::{Link, Links};
pub use pending::Pending;
pub use places::Places;
pub use reduced::Reduced;
pub use scale::Scale;
