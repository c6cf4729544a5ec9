// A book, its seats and its turns.
ghost use Rattle.std.specs.Prelude.{◌≡◌};
ghost use Rattle.turn_book.specs.Slots.{held_at};

use crate::rule::{InTurn, Start};
use crate::stands::Stands;
use crate::view::View;
use atomic_table::{Seat, Table};
use std::alloc::Global;
use std::snapshot::Snapshot;

mod calls;
mod lends;
mod steps;
#[cfg(test)]
mod tests;

/// A value that one seat at a time has. Its four words are 0, the next ticket, the ticket that is served and the length of the list.
#[derive(Drop)]
pub struct Book<V: Stands> {
    table: Table<Option<V>, View<V::Origin, V::Entry>, Start<V>, InTurn, Global>,
    ghost shaped: { (table.shared.table_id.words ≡ 4) × (table.shared.table_id.slots ≡ 1) },
}

/// What one thread knows of a book, and what it may do. It has no bytes, and may go to another thread where the value may.
#[derive(Drop)]
pub struct BookSeat<V: Stands> {
    seat: Seat<Option<V>, View<V::Origin, V::Entry>>,
    ghost holds: { seat.me.1 ≡ held_at seat.me.0.stage },
}

/// The value, while a seat has it. While it is out no other turn is; one that is dropped is never served to an end.
#[derive(Drop)]
pub struct Turn<V: Stands> {
    value: V,
    at: Snapshot<Seat<Option<V>, View<V::Origin, V::Entry>>>,
}
