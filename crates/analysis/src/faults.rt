//! Why a system has no analysis.
ghost use Rattle.std.specs.Prelude.{◌≡◌};
ghost use Rattle.analysis.specs.declared.faults.AnalyseFault.TheVariants.{Memory};
ghost use Rattle.analysis.specs.Faults.{live_fault};

use liveness_check::LiveFault;
use rule_system::Cycle;
use std::alloc::AllocError;

/// Why a system has no analysis.
#[derive(Debug, Drop)]
pub enum AnalyseFault {
    /// V1: the least event that no walk from the root reaches.
    Unreached(u32),
    /// V2: the least event from which no walk leads to the root.
    NoReturn(u32),
    /// V3: the first cycle of rules of offset 0.
    Dead(Cycle),
    /// There was not enough memory.
    Memory,
}

impl From<AllocError> for AnalyseFault {
    ghost from_gives = { λ _ e. e ≡ Memory };

    fn from(_e: AllocError) -> AnalyseFault {
        AnalyseFault::Memory
    }
}

impl From<LiveFault> for AnalyseFault {
    ghost from_gives = { λ fault e. live_fault e ≡ fault };

    fn from(fault: LiveFault) -> AnalyseFault {
        match fault {
            LiveFault::Unreached(event) => AnalyseFault::Unreached(event),
            LiveFault::NoReturn(event) => AnalyseFault::NoReturn(event),
            LiveFault::Dead(cycle) => AnalyseFault::Dead(cycle),
            LiveFault::Memory => AnalyseFault::Memory,
        }
    }
}
