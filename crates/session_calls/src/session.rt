//! A session: a pin or none, and a draft.
ghost use Rattle.std.specs.Prelude.{◌≡◌, [], None, option_map};
ghost use Rattle.std.specs.Arc.{arc_value};
ghost use Rattle.session_calls.specs.Ahead.{HoldsAhead};
ghost use Rattle.session_calls.specs.States.{SessionState};

use netlist_model::{Edit, Netlist};
use pinned_reader::{Pinned, Row};
use session_machine::Reply;
use std::alloc::Global;
use std::marker::Model;
use std::sync::Arc;
use version_store::Pin;

mod act;
mod finish;
mod local;
mod prepare;

/// A pinned row, and its netlist after the draft, once an edit was tried: until then the row's own netlist stands for it.
#[derive(Drop)]
struct Held {
    pin: Pinned,
    edited: Option<Netlist>,
}

/// A session. With a pin it keeps the pinned netlist after its draft, so that an edit costs that edit alone, and the first one after a
/// pin or a `drop` a copy of the netlist.
#[derive(Drop)]
pub struct Session {
    number: u16,
    held: Option<Held>,
    draft: Vec<Edit>,
}

impl Model for Session {
    ghost Value = { SessionState };

    ghost view = { λ s. record {
      number = s.number;
      pin = option_map (λ h. (h.pin.number, arc_value h.pin.row)) s.held;
      draft = s.draft.items;
    } };

    ghost invariant = { λ s. HoldsAhead s.draft.items s.held };
}

impl Session {
    /// A session of this number, without a pin and with an empty draft. It takes no memory.
    pub fn new(alloc: Global, number: u16) -> Session
        ensures { result ≡ record { number = number; pin = None; draft = [] } }
    {
        Session {
            number,
            held: None,
            draft: Vec::new(alloc),
        }
    }

    /// The session's number.
    pub fn number(&self) -> u16
        ensures { result ≡ self.now.number }
    {
        self.number
    }
}

/// What a shared call wants of the hall.
#[derive(Drop)]
pub enum Ready {
    /// Nothing but its place in the order: the call is refused.
    Pass(Reply),
    /// The newest row, for a pin.
    Latest,
    /// The row of this number, for a pin.
    At(u64),
    /// The newest row, for the draft.
    Rebase,
    /// This row's place behind the pinned one: a handle for the hall, and one for the session.
    Publish(Arc<Row, Global>, Arc<Row, Global>),
}

/// What a shared call got of the hall.
#[derive(Drop)]
pub enum Taken {
    /// Its place alone; the call is refused.
    Pass(Reply),
    /// A row to pin.
    Pinned(Pin<Row>),
    /// There is no such row; the newest row's number is told.
    NoVersion(u32),
    /// The newest row, for the draft.
    Rebase(Pin<Row>),
    /// The row's number.
    Published(u32, Arc<Row, Global>),
    /// The pin is below the newest row, whose number is told.
    Stale(u32),
    /// As many rows stand as there may be.
    Full,
    /// There was not enough memory for a handle; the call has its place.
    Memory,
}
