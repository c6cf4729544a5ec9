//! What reaches outside: files, a sink and a gate, as traits with a written meaning; in memory and real.
//!
//! The promise: what is read is the file's bytes where files are told, what is written is appended where bytes are told, and a
//! read or a write fails only where a count rose. In memory all is told, and it is exact which call fails and what it leaves.
//!
//! What contracts see of a shelf and a sink is defined in `specs/Seen`, files in `specs/Files`, the states in memory in
//! `specs/MemoryShelf` and `specs/MemorySink`. The clauses of the traits are all that the crates above know: add none that the
//! real file system does not keep, and no fault without a count that rises.
#![tactic(auto)]

mod file_shelf;
mod gate;
mod memory;
mod memory_sink;
mod shelf;
mod sink;
mod sink_stop;
mod stdout_sink;
#[cfg(test)]
mod tests;

pub use file_shelf::FileShelf;
pub use gate::{Gate, OpenGate};
pub use memory::{MemShelf, NamedFile};
pub use memory_sink::MemSink;
pub use shelf::{Shelf, ShelfFault};
pub use sink::{Sink, SinkFailed};
pub use sink_stop::SinkStop;
pub use stdout_sink::StdoutSink;
