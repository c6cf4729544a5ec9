// The rule of shared words, and a name for each of their atomic steps.
ghost use Rattle.arrival_words.specs.Rule.{first_view, keeps_rule};
ghost use Rattle.arrival_words.specs.Views.{loaded, raised, joined, spent_view};

use crate::key::Key;
use crate::view::View;
use atomic_table::{Join, Play, Split, TableRule};

/// The rule.
#[derive(Clone, Copy)]
pub struct Relaxation;

impl TableRule<(), View, Key> for Relaxation {
    ghost holds = { keeps_rule };

    ghost first = { first_view };
}

// load of an event's word.
pub(crate) struct Loaded;

impl Play<(), View> for Loaded {
    ghost then = { loaded };
}

// fetch_max of an event's word.
pub(crate) struct Raised;

impl Play<(), View> for Raised {
    ghost then = { raised };
}

// split_seat: both seats know the same.
pub(crate) struct Copied;

impl Split<View> for Copied {
    ghost left = { λ v. v };

    ghost right = { λ v. v };
}

// join_seat: the seat knows the greater numbers.
pub(crate) struct Joined;

impl Join<View> for Joined {
    ghost both = { joined };

    ghost spent = { spent_view };
}
