//! What a session may call.
ghost use Rattle.std.specs.Prelude.{◌≡◌};
ghost use Rattle.session_script.specs.Calls as spec;

use cyc_text::Text;
use netlist_model::{Edit, EventName};
use std::marker::Model;

/// A call of a session.
#[derive(Drop)]
pub enum Call {
    /// The session's pin is the newest version.
    Pin,
    /// The session's pin is the version of that number.
    PinAt(u64),
    /// The pin is the newest version, and the draft stays.
    Rebase,
    /// The draft becomes a version.
    Publish,
    /// An edit is added to the draft.
    Make(Edit),
    /// The draft is emptied.
    Drop,
    /// How many edits the draft has.
    Draft,
    /// The period of the pinned version.
    Period,
    /// Its critical cycle.
    Cycle,
    /// The arrival of an event in it.
    Arrival(EventName),
    /// The slack of the fork of that name in it.
    Slack(Text),
    /// Its whole report.
    Report,
}

impl Call {
    /// Whether the call takes a place in the one order of all sessions. Each other call touches its own session alone.
    pub fn is_shared(&self) -> bool
        ensures { result ≡ spec.is_shared self.now }
    {
        matches!(
            self,
            Call::Pin | Call::PinAt(_) | Call::Rebase | Call::Publish
        )
    }

    /// Whether the call asks for a whole report.
    pub fn is_report(&self) -> bool
        ensures { result ≡ spec.is_report self.now }
    {
        matches!(self, Call::Report)
    }
}

/// The calls of a session, in order.
#[derive(Drop)]
pub struct Script {
    items: Vec<Call>,
}

impl Model for Script {
    ghost use Rattle.std.specs.Prelude.{List};
    ghost use Rattle.session_script.specs.declared.calls.Call.{Call};

    ghost Value = { List Call };

    ghost view = { λ s. s.items.items };
}

impl Script {
    /// The list of these calls.
    pub fn of(items: Vec<Call>) -> Script
        ensures { result ≡ items.items }
    {
        Script { items }
    }

    /// The calls.
    pub fn list(&self) -> &[Call]
        ensures { result.now ≡ self.now }
    {
        self.items.as_slice()
    }
}
