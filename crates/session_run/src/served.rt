//! What a driver answers.
use session_machine::Replies;
use std::marker::Model;

/// The session numbers of shared calls, in the order in which they took their places.
#[derive(Debug, Drop)]
pub struct Order {
    items: Vec<u16>,
}

impl Model for Order {
    ghost use Rattle.std.specs.Prelude.{List, ℕ};

    ghost Value = { List ℕ };

    ghost view = { λ o. o.items.items };
}

impl Order {
    ghost use Rattle.std.specs.Prelude.{◌≡◌};

    /// The order of these numbers. It takes no memory.
    pub fn of(items: Vec<u16>) -> Order
        ensures { result ≡ items.items }
    {
        Order { items }
    }

    /// The numbers.
    pub fn list(&self) -> &[u16]
        ensures { result.now ≡ self.now }
    {
        self.items.as_slice()
    }
}

/// The replies of each session, by its number.
#[derive(Debug, Drop)]
pub struct ReplyLists {
    items: Vec<Replies>,
}

impl Model for ReplyLists {
    ghost use Rattle.std.specs.Prelude.{List};
    ghost use Rattle.session_machine.specs.declared.replies.Reply.{Reply};

    ghost Value = { List (List Reply) };

    ghost view = { λ r. r.items.items };
}

impl ReplyLists {
    ghost use Rattle.std.specs.Prelude.{◌≡◌};

    /// The list of these lists. It takes no memory.
    pub fn of(items: Vec<Replies>) -> ReplyLists
        ensures { result ≡ items.items }
    {
        ReplyLists { items }
    }

    /// The lists.
    pub fn list(&self) -> &[Replies]
        ensures { result.now ≡ self.now }
    {
        self.items.as_slice()
    }
}

/// An order, and the replies along it.
#[derive(Debug, Drop)]
pub struct Served {
    /// The order of the shared calls.
    pub order: Order,
    /// The replies to all calls.
    pub replies: ReplyLists,
}
