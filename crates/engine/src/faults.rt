//! Why a run has no text.
ghost use Rattle.std.specs.Prelude.{◌≡◌};
ghost use Rattle.engine.specs.declared.faults.Fault.TheVariants.{Memory};
ghost use Rattle.engine.specs.Answers.{source_status, status_of};

use crate::outcome::Written;
use report_writer::{FaultLine, Source};
use std::alloc::{AllocError, AllocFailed};

/// Why a run has no text.
#[derive(Debug, Drop)]
pub enum Fault {
    /// It is told by a line.
    Line(FaultLine),
    /// Memory ran out.
    Memory,
}

impl From<AllocError> for Fault {
    ghost from_gives = { λ _ e. e ≡ Memory };

    fn from(_: AllocError) -> Self {
        Fault::Memory
    }
}

impl<T: Drop> From<AllocFailed<T>> for Fault {
    ghost from_gives = { λ _ e. e ≡ Memory };

    fn from(_: AllocFailed<T>) -> Self {
        Fault::Memory
    }
}

/// The status of what a line tells of.
fn source_status(source: Source) -> u8
    ensures { result ≡ source_status source }
{
    match source {
        Source::Words => 2,
        Source::Library => 3,
        Source::Netlist | Source::Edits => 4,
        Source::Script => 5,
        Source::Reading => 6,
    }
}

/// The status of an answer.
pub(crate) fn status(answer: &Result<Written, Fault>) -> u8
    ensures { result ≡ status_of answer.now }
{
    match answer {
        Ok(_) => 0,
        Err(Fault::Line(line)) => source_status(line.source()),
        Err(Fault::Memory) => 8,
    }
}
