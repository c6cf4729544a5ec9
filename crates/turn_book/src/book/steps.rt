// Steps whose proof picks an entry or a number of turns.
ghost use Rattle.std.specs.Prelude.{◌≡◌, ◌+◌, ◌-◌, ◌<◌, ◌≤◌, ℕ, List, [], ◌∷◌, ◌++◌, length, Some};
ghost use Rattle.turn_book.specs.declared.view.Stage.TheVariants.{Out};
ghost use Rattle.turn_book.specs.Views.{placing, handing, newcomer};
ghost use Rattle.turn_book.specs.Seats.{view, IsSeatOf, IsOpening, IsSession};

use super::{Book, BookSeat};
use crate::rule::{Amount, Hand, Names, Place};
use crate::stands::Stands;

impl<V: Stands> Book<V> {
    // Gives the seat's entry its place in the order, and answers it.
    pub(super) fn place<N: Names<V::Entry>>(&self, seat: &mut BookSeat<V>, value: &V) -> u64
        requires book { IsSeatOf self.now seat.old }
        requires session { IsSession seat.old }
        requires entry { (k : ℕ) × (l : List V.Entry) × (e : V.Entry)
            × ((view seat.old).stage ≡ Out k l) × (N.entry ≡ Some e)
            × (V.session e ≡ (view seat.old).number) }
        ensures book { IsSeatOf self.now seat.new }
        ensures placed { (k : ℕ) (l : List V.Entry) (e : V.Entry)
            → (view seat.old).stage ≡ Out k l → N.entry ≡ Some e
            → (result ≡ length l) × (view seat.new ≡ placing (view seat.old) k l e) }
    {
        let _ = value;
        self.table
            .shared
            .fetch_add::<Place<N>>(&mut seat.seat, 3, 1)
    }

    // Hands over so many turns with the next number.
    pub(super) fn hand<N: Amount>(&self, seat: &mut BookSeat<V>, turns: u64) -> BookSeat<V>
        requires book { IsSeatOf self.now seat.old }
        requires opening { IsOpening seat.old }
        requires turns { (N.turns ≡ turns) × (turns ≤ (view seat.old).left) }
        ensures book { IsSeatOf self.now seat.new }
        ensures new_book { IsSeatOf self.now result }
        ensures seat { view seat.new ≡ handing turns (view seat.old) }
        ensures new { view result ≡ newcomer turns (view seat.old) }
    {
        let other = self.table.shared.split_seat::<Hand<N>>(&mut seat.seat);
        BookSeat { seat: other }
    }
}
