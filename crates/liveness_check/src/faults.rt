//! Why a system is not connected or not live.
ghost use Rattle.std.specs.Prelude.{◌≡◌};
ghost use Rattle.liveness_check.specs.declared.faults.LiveFault.TheVariants.{Memory};

use rule_system::Cycle;
use std::alloc::AllocError;

/// Why a system has no analysis.
#[derive(Debug, Drop)]
pub enum LiveFault {
    /// V1: the least event that no walk from the root reaches.
    Unreached(u32),
    /// V2: the least event from which no walk leads to the root.
    NoReturn(u32),
    /// V3: the first cycle of rules of offset 0.
    Dead(Cycle),
    /// V4: there was not enough memory.
    Memory,
}

impl From<AllocError> for LiveFault {
    ghost from_gives = { λ _ e. e ≡ Memory };

    fn from(_e: AllocError) -> LiveFault {
        LiveFault::Memory
    }
}
