//! What calls are answered.
use cyc_num::Ratio;
use cyc_text::Text;
use netlist_model::StatementFault;
use std::marker::Model;

/// The reply to a call. Times are scaled by the bottom of the period.
#[derive(Debug, Drop)]
pub enum Reply {
    /// The version that the session has pinned.
    Pinned(u64),
    /// The newest version, which is the pin from now on.
    Rebased(u64),
    /// The number of the new version.
    Published(u64),
    /// How many edits the draft has now.
    Edited(u64),
    /// How many edits the draft had.
    Dropped(u64),
    /// How many edits the draft has.
    Draft(u64),
    /// The period of the pinned version.
    Period(Ratio),
    /// Its critical cycle: how many rules, the sums of their delays and offsets, its first event.
    Cycle(u64, u64, u64, Text),
    /// The scaled arrival of an event, and the scale.
    Arrival(i64, u64),
    /// The scaled slack of a fork, and the scale.
    Slack(i64, u64),
    /// The whole report.
    Report(Text),
    /// The call is refused.
    Refused(Refusal),
}

/// Why a call is refused. Positions count from 1.
#[derive(Debug, Drop)]
pub enum Refusal {
    /// The session has no pin.
    NotPinned,
    /// The draft is not empty.
    DraftOpen,
    /// The number is above that of the newest version, which is told.
    NoVersion(u64),
    /// The draft is empty.
    EmptyDraft,
    /// No instance drives the net of this name.
    Undriven(Text),
    /// The netlist has no root.
    NoRoot,
    /// There is no rule between the events of this tick.
    IdleTick(u64),
    /// The netlist has this many rules, more than there may be.
    TooManyRules(u64),
    /// No walk leads from the root to this event.
    Unreached(Text),
    /// No walk leads from this event to the root.
    NoReturn(Text),
    /// A cycle of so many rules, from this event on, has the offset 0.
    Dead(u64, Text),
    /// The pin is below the newest version, which is told.
    Stale(u64),
    /// As many versions stand as there may be.
    Full,
    /// The edit of the draft at this position is refused on the newest version.
    Edit(u64, StatementFault),
    /// The edit is refused.
    Statement(StatementFault),
    /// The version has no such event.
    NoEvent,
    /// The version has no such fork.
    NoFork,
}

/// The replies to the calls of a session, in order.
#[derive(Debug, Drop)]
pub struct Replies {
    items: Vec<Reply>,
}

impl Model for Replies {
    ghost use Rattle.std.specs.Prelude.{List};
    ghost use Rattle.session_machine.specs.declared.replies.Reply.{Reply};

    ghost Value = { List Reply };

    ghost view = { λ r. r.items.items };
}

impl Replies {
    ghost use Rattle.std.specs.Prelude.{◌≡◌};

    /// The list of these replies. It takes no memory.
    pub fn of(items: Vec<Reply>) -> Replies
        ensures { result ≡ items.items }
    {
        Replies { items }
    }

    /// The replies.
    pub fn list(&self) -> &[Reply]
        ensures { result.now ≡ self.now }
    {
        self.items.as_slice()
    }
}
