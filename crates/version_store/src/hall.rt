// A hall of rows.
ghost use Rattle.std.specs.Prelude.{◌≡◌, ℕ, ◌+◌, ◌<◌, ◌≤◌, [], ◌∷◌, ◌++◌, length, map, vec_len, vec_capacity};
ghost use Rattle.std.specs.Arc.{arc_value};
ghost use Rattle.version_store.specs.declared.state.HallState.{HallState};
ghost use Rattle.version_store.specs.Halls.{state_of, origin_of, row_limit, IsKept};

use crate::entry::HallEntry;
use crate::follows::Follows;
use crate::state::{HallItem, HallOrigin, HallState};
use std::alloc::Global;
use std::marker::Model;
use std::sync::Arc;
use turn_book::Stands;

mod calls;
mod notes;

/// The most rows of a hall, the base among them.
pub const MOST_ROWS: u32 = 256;

/// A handle on a row, and the row's number.
#[derive(Drop)]
pub struct Pin<R: Drop> {
    /// From 0, the base.
    pub number: u32,
    /// The row.
    pub row: Arc<R, Global>,
}

/// The rows, the base first, and an entry for each call. Room for all of them is reserved when it is opened.
#[derive(Drop)]
pub struct Hall<R: Follows + Drop> {
    base: Arc<R, Global>,
    rows: Vec<Arc<R, Global>>,
    entries: Vec<HallEntry>,
    room: u64,
}

impl<R: Follows + Drop> Model for Hall<R> {
    ghost Value = { HallState R };

    ghost view = { λ h.
        state_of (arc_value h.base) (map (λ r. arc_value r) h.rows.items) h.entries.items h.room };

    ghost invariant = { λ h.
        (vec_len h.entries + h.room ≤ vec_capacity h.entries)
        × (row_limit ≤ vec_capacity h.rows + 1)
        × IsKept R.follows (arc_value h.base) (map (λ r. arc_value r) h.rows.items) h.entries.items
        (vec_len h.rows) };
}

// A hall stands for what it was opened with and for its items.
impl<R: Follows + Drop> Stands for Hall<R> {
    type Origin = HallOrigin<R>;

    type Entry = HallItem<R>;

    ghost origin = { λ h. origin_of h };

    ghost entries = { λ h. h.items };

    ghost session = { λ i. i.entry.session };
}
