//! Why a netlist has no analysis.
ghost use Rattle.std.specs.Prelude.{◌≡◌};
ghost use Rattle.netlist_analysis.specs.declared.faults.NetlistFault.TheVariants.{Memory};

use netlist_model::WholeFault;
use std::alloc::{AllocError, AllocFailed};
use std::marker::Model;

/// Why a netlist has no analysis.
#[derive(Debug, Drop)]
pub enum NetlistFault {
    /// It is not whole: the first of H1 to H4.
    Whole(WholeFault),
    /// V1: the least event that no walk from the root reaches.
    Unreached(u32),
    /// V2: the least event from which no walk leads to the root.
    NoReturn(u32),
    /// V3: the source events of the rules of the first cycle of offset 0, in order.
    Dead(EventList),
    /// There was not enough memory.
    Memory,
}

impl From<AllocError> for NetlistFault {
    ghost from_gives = { λ _ e. e ≡ Memory };

    fn from(_: AllocError) -> Self {
        NetlistFault::Memory
    }
}

impl<T: Drop> From<AllocFailed<T>> for NetlistFault {
    ghost from_gives = { λ _ e. e ≡ Memory };

    fn from(_: AllocFailed<T>) -> Self {
        NetlistFault::Memory
    }
}

/// A list of events, by their numbers.
#[derive(Debug, Drop)]
pub struct EventList {
    items: Vec<u32>,
}

impl Model for EventList {
    ghost use Rattle.std.specs.Prelude.{List, ℕ};

    ghost Value = { List ℕ };

    ghost view = { λ e. e.items.items };
}

impl EventList {
    ghost use Rattle.std.specs.Prelude.{◌≡◌};

    /// The list of these events. It takes no memory.
    pub fn of(items: Vec<u32>) -> EventList
        ensures { result ≡ items.items }
    {
        EventList { items }
    }

    /// The events.
    pub fn list(&self) -> &[u32]
        ensures { result.now ≡ self.now }
    {
        self.items.as_slice()
    }
}
