// Why a pin or a publish was refused.
ghost use Rattle.std.specs.Prelude.{◌≡◌};
ghost use Rattle.version_store.specs.declared.faults.PinFault.TheVariants.{Memory};

use std::alloc::AllocError;

/// Why no pin was given. The call's entry is made all the same.
#[derive(Clone, Copy, Debug, PartialEq, Eq)]
pub enum PinFault {
    /// The number is above the head, which is told.
    NoVersion(u32),
    /// Want of memory for a further handle on the row.
    Memory,
}

impl From<AllocError> for PinFault {
    ghost from_gives = { λ _ fault. fault ≡ Memory };

    fn from(_: AllocError) -> Self {
        PinFault::Memory
    }
}

/// Why a row was not published. The call's entry is made all the same.
#[derive(Clone, Copy, Debug, PartialEq, Eq)]
pub enum HallFault {
    /// The base is below the head, which is told.
    Stale(u32),
    /// As many rows stand as there may be.
    Full,
}
