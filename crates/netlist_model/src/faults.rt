// Why a statement, a list of edits or a whole netlist is refused.
use cyc_text::Limit;
use std::alloc::{AllocError, AllocFailed};

/// Why a statement is refused.
#[derive(Clone, Copy, Debug, PartialEq, Eq, Drop)]
pub enum StatementFault {
    /// The name is no name.
    BadName,
    /// A net, a constant or an instance has the name.
    NameTaken,
    /// No net or constant has the name.
    UnknownNet,
    /// No cell has the name.
    UnknownCell,
    /// No instance has the name.
    UnknownInst,
    /// The cell has no such pin.
    UnknownPin,
    /// A pin is given twice, or is not given.
    BadPins,
    /// The instance at this position, from 1, drives the net.
    DriverTaken(usize),
    /// The output would be on a constant.
    ConstDriven,
    /// The cell has no arc from the pin.
    NoArc,
    /// The number is out of its range.
    OutOfRange(u64),
    /// The pair of events has a tick.
    TickTaken,
    /// No net with events has the event's name.
    UnknownEvent,
    /// There is a root.
    RootTaken,
    /// A fork has the name.
    ForkTaken,
    /// No fork has the name.
    UnknownFork,
    /// The net is still used.
    StillUsed,
    /// There are as many as there may be.
    TooMany(Limit),
    /// Memory ran out.
    Memory,
}

/// Why a list of edits is refused. Positions count from 1.
#[derive(Clone, Copy, Debug, PartialEq, Eq, Drop)]
pub enum EditFault {
    /// The edit at this position is the first that is refused.
    At(usize, StatementFault),
    /// Memory ran out.
    Memory,
}

impl From<AllocError> for EditFault {
    ghost use Rattle.std.specs.Prelude.{◌≡◌};
    ghost use Rattle.netlist_model.specs.declared.faults.EditFault.TheVariants.{Memory};

    ghost from_gives = { λ _ e. e ≡ Memory };

    fn from(_e: AllocError) -> EditFault {
        EditFault::Memory
    }
}

impl From<AllocError> for StatementFault {
    ghost use Rattle.std.specs.Prelude.{◌≡◌};
    ghost use Rattle.netlist_model.specs.declared.faults.StatementFault.TheVariants.{Memory};

    ghost from_gives = { λ _ e. e ≡ Memory };

    fn from(_e: AllocError) -> StatementFault {
        StatementFault::Memory
    }
}

impl<T: Drop> From<AllocFailed<T>> for StatementFault {
    ghost use Rattle.std.specs.Prelude.{◌≡◌};
    ghost use Rattle.netlist_model.specs.declared.faults.StatementFault.TheVariants.{Memory};

    ghost from_gives = { λ _ e. e ≡ Memory };

    fn from(_e: AllocFailed<T>) -> StatementFault {
        StatementFault::Memory
    }
}

/// Why a netlist is not whole. Positions count from 1.
#[derive(Clone, Copy, Debug, PartialEq, Eq, Drop)]
pub enum WholeFault {
    /// The net at this position is the first that no instance drives.
    Undriven(usize),
    /// There is no root.
    NoRoot,
    /// The tick at this position is the first with no rule between its events.
    IdleTick(usize),
    /// There are this many rules, more than 131,072.
    TooManyRules(u64),
}
