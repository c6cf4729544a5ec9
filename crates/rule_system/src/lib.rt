//! Repetitive systems of events and rules, and the laws of their walks.
//!
//! A rule says that its target follows its source by a delay; its offset counts how many
//! repetitions later that is. Delays are in picoseconds. At a period of top/bottom picoseconds a
//! repetition, weights and arrivals are scaled by the bottom, so that they are whole numbers.
//!
//! The promise: a `System` lists its rules by source and by target, and each law holds for every system. Definitions stand in
//! `specs/`: walks and live systems in `Walks`, periods and arrivals in `Weights`, limits in `Bounds`, the first cycle in `FirstCycle`.
//! They are all that reports mean, so no search is spoken of in them; `plain` is slow on purpose, and for tests alone.
//!
//! Source of such systems, of their simulation and of their period: S. M. Burns, Performance
//! Analysis and Optimization of Asynchronous Circuits, California Institute of Technology, 1991.
#![tactic(auto)]

mod cycles;
pub mod inverter_ring;
pub mod laws;
mod limits;
pub mod measures;
pub mod orders;
pub mod plain;
mod rows;
mod rules;
mod systems;
#[cfg(test)]
mod tests;

pub use cycles::Cycle;
pub use limits::{MOST_DELAY, MOST_EVENTS, MOST_OFFSET, MOST_RULES};
pub use rules::Rule;
pub use systems::System;
