// Why a line, a netlist file or a file of edits is refused.
use netlist_model::StatementFault;
use std::alloc::{AllocError, AllocFailed};

/// Why a line is no edit.
#[derive(Clone, Copy, Debug, PartialEq, Eq, Drop)]
pub enum LineFault {
    /// It has no form of an edit line.
    Syntax,
    /// Memory ran out.
    Memory,
}

/// Why a netlist file is refused: the number of its first refused line, from 1.
#[derive(Clone, Copy, Debug, PartialEq, Eq, Drop)]
pub enum NetFault {
    /// The line has no form that a netlist file allows.
    Syntax(u64),
    /// The line's statement is refused.
    Statement(u64, StatementFault),
    /// Memory ran out.
    Memory,
}

/// Why a file of edits is refused: the number of its first line that is no edit line, from 1.
#[derive(Clone, Copy, Debug, PartialEq, Eq, Drop)]
pub enum EditsFault {
    /// The line has no form of an edit line.
    Syntax(u64),
    /// Memory ran out.
    Memory,
}

impl From<AllocError> for EditsFault {
    ghost use Rattle.std.specs.Prelude.{◌≡◌};
    ghost use Rattle.netlist_reader.specs.declared.faults.EditsFault.TheVariants.{Memory};

    ghost from_gives = { λ _ e. e ≡ Memory };

    fn from(_: AllocError) -> Self {
        EditsFault::Memory
    }
}

impl<T: Drop> From<AllocFailed<T>> for EditsFault {
    ghost use Rattle.std.specs.Prelude.{◌≡◌};
    ghost use Rattle.netlist_reader.specs.declared.faults.EditsFault.TheVariants.{Memory};

    ghost from_gives = { λ _ e. e ≡ Memory };

    fn from(_: AllocFailed<T>) -> Self {
        EditsFault::Memory
    }
}

impl From<AllocError> for LineFault {
    ghost use Rattle.std.specs.Prelude.{◌≡◌};
    ghost use Rattle.netlist_reader.specs.declared.faults.LineFault.TheVariants.{Memory};

    ghost from_gives = { λ _ e. e ≡ Memory };

    fn from(_: AllocError) -> Self {
        LineFault::Memory
    }
}

impl<T: Drop> From<AllocFailed<T>> for LineFault {
    ghost use Rattle.std.specs.Prelude.{◌≡◌};
    ghost use Rattle.netlist_reader.specs.declared.faults.LineFault.TheVariants.{Memory};

    ghost from_gives = { λ _ e. e ≡ Memory };

    fn from(_: AllocFailed<T>) -> Self {
        LineFault::Memory
    }
}

impl From<AllocError> for NetFault {
    ghost use Rattle.std.specs.Prelude.{◌≡◌};
    ghost use Rattle.netlist_reader.specs.declared.faults.NetFault.TheVariants.{Memory};

    ghost from_gives = { λ _ e. e ≡ Memory };

    fn from(_: AllocError) -> Self {
        NetFault::Memory
    }
}
