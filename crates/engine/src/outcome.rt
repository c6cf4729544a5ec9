//! What a run ends with.
ghost use Rattle.std.specs.Prelude.{◌≡◌, []};
ghost use Rattle.engine.specs.Answers.{plain};

use cyc_text::Text;
use session_run::Order;
use std::alloc::Global;

/// How a run ended.
#[derive(Drop)]
pub struct Outcome {
    /// 0 where the text was written; 2 to 6 where a fault's line was; 7 where the sink failed; 8 for want of memory.
    pub status: u8,
    /// The order of the sessions' shared calls; empty for a command without sessions, for a fault and for want of memory.
    pub order: Order,
}

/// What a command writes.
#[derive(Drop)]
pub struct Written {
    /// The whole text.
    pub text: Text,
    /// The order of the sessions' shared calls; empty for a command without sessions.
    pub order: Order,
}

/// The order of no calls. It takes no memory.
pub(crate) fn no_order(alloc: Global) -> Order
    ensures { result ≡ [] }
{
    Order::of(Vec::new(alloc))
}

/// A text of no sessions. It takes no memory.
pub(crate) fn plain(alloc: Global, text: Text) -> Written
    ensures { result ≡ plain text }
{
    Written {
        text,
        order: no_order(alloc),
    }
}
