// What a turn lends.
ghost use Rattle.std.specs.Prelude.{◌≡◌};
ghost use Rattle.std.specs.Borrow.{sem, Lends};
ghost use Rattle.turn_book.specs.contracts.book.Turn.{the_row};
ghost use Rattle.turn_book.specs.Seats.{turn_value, with_value};

use super::Turn;
use crate::stands::Stands;

impl<V: Stands> Turn<V> {
    /// The value, to be read and changed in the turn.
    pub fn value(&mut self) -> &mut V
        ensures* writes_back { sem 𝓛 (Lends (the_row V.row V.Origin.row V.Entry.row) V.row self.entry result
            (with_value self.old)) }
        ensures value { result.now ≡ turn_value self.old }
    {
        &mut self.value
    }
}
