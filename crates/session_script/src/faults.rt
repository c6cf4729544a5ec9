//! Why a script is refused.
use cyc_text::Limit;
use std::alloc::{AllocError, AllocFailed};

/// Why a script is refused.
#[derive(Clone, Copy, Debug, PartialEq, Eq, Drop)]
pub enum ScriptFault {
    /// The line of that number, from 1, says no call.
    Syntax(u64),
    /// It has more calls (`Lines`) or more reports (`Reports`) than are left.
    TooMany(Limit),
    /// Memory ran out.
    Memory,
}

impl From<AllocError> for ScriptFault {
    ghost use Rattle.std.specs.Prelude.{◌≡◌};
    ghost use Rattle.session_script.specs.declared.faults.ScriptFault.TheVariants.{Memory};

    ghost from_gives = { λ _ e. e ≡ Memory };

    fn from(_: AllocError) -> Self {
        ScriptFault::Memory
    }
}

impl<T: Drop> From<AllocFailed<T>> for ScriptFault {
    ghost use Rattle.std.specs.Prelude.{◌≡◌};
    ghost use Rattle.session_script.specs.declared.faults.ScriptFault.TheVariants.{Memory};

    ghost from_gives = { λ _ e. e ≡ Memory };

    fn from(_: AllocFailed<T>) -> Self {
        ScriptFault::Memory
    }
}
