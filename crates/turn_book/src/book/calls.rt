// The calls of a book.
ghost use Rattle.std.specs.Prelude.{◌≡◌, ◌+◌, ◌-◌, ◌<◌, ◌≤◌, ℕ, List, [], ◌∷◌, ◌++◌, length, Some, IfOk};
ghost use Rattle.std.specs.List.{AllByRecursion};
ghost use Rattle.turn_book.specs.Views.{StartsWith, own, opening, handing, newcomer, ending, after_turn};
ghost use Rattle.turn_book.specs.Views.{Takes, IsGiven, HasPairs, HasEndedAll};
ghost use Rattle.turn_book.specs.Seats.{view, turn_list, turn_value, IsSeatOf, IsOpening, IsSession};
ghost use Rattle.turn_book.specs.Seats.{HoldsNoTurn, IsTurnOf};

use super::{Book, BookSeat, Turn};
use crate::rule::{Draw, End, Know, Look, Serve, Start};
use crate::stands::Stands;
use atomic_table::{Refused, Table};
use std::alloc::{AllocError, Global};
use std::marker::Brand;
use std::snapshot::Snapshot;
use std::sync::Wait;
use std::thread;

impl<V: Stands> Book<V> {
    /// A book of so many turns, and its opening seat, which has them all. The value stands for no entries yet.
    ///
    /// # Errors
    /// Want of memory. The value is then given up.
    pub fn open(alloc: Global, value: V, turns: u64) -> Result<(Book<V>, BookSeat<V>), AllocError>
    where
        V: Drop,
        requires { V.entries value ≡ [] }
        ensures book { IfOk result (λ r. IsSeatOf r.0 r.1) }
        ensures seat { IfOk result (λ r. view r.1 ≡ opening (V.origin value) turns) }
    {
        let start = Start {
            value: Snapshot::of(&value),
            total: turns,
        };
        let mut slots = Vec::with_capacity(alloc, 1)?;
        slots.push_reserved(Some(value));
        match Table::new(alloc, &[0, 0, 0, 0], slots, &start) {
            Ok((table, seat)) => Ok((Book { table }, BookSeat { seat })),
            Err(Refused { slots: _ }) => Err(AllocError),
        }
    }

    /// Draws a ticket, waits for the turns before it, and takes the value.
    pub fn take_turn<R: Wait>(&self, rt: &R, seat: &mut BookSeat<V>) -> Turn<V>
        requires book { IsSeatOf self.now seat.old }
        requires session { IsSession seat.old }
        requires idle { HoldsNoTurn seat.old }
        requires left { 1 ≤ (view seat.old).left }
        ensures book { IsSeatOf self.now seat.new }
        ensures turn { IsTurnOf result seat.new }
        ensures seat { Takes (view seat.old) (view seat.new) (turn_list result) }
        ensures origin { (view seat.old).origin ≡ Some (V.origin (turn_value result)) }
        ensures list { V.entries (turn_value result) ≡ turn_list result }
        ensures room { length (turn_list result) < (view seat.old).total }
        ensures seen { StartsWith (turn_list result) (view seat.old).seen }
        ensures made { own V.session (view seat.old).number (turn_list result) ≡ (view seat.old).made }
    {
        let shared = &self.table.shared;
        let ticket = shared.fetch_add::<Draw>(&mut seat.seat, 1, 1);
        for _ in rt.forever() {
            if shared.load::<Look>(&mut seat.seat, 2) == ticket {
                let Some(value) = shared.exchange(&mut seat.seat, 0, None) else {
                    unreachable!()
                };
                return Turn {
                    value,
                    at: Snapshot::of(&seat.seat),
                };
            }
            thread::yield_now();
        }
        unreachable!()
    }

    /// Ends a turn in which the seat added one entry. Answers the entry's place in the list, from 0.
    pub fn give_back(&self, seat: &mut BookSeat<V>, turn: Turn<V>) -> u64
        requires book { IsSeatOf self.now seat.old }
        requires session { IsSession seat.old }
        requires turn { IsTurnOf turn seat.old }
        requires origin { (view seat.old).origin ≡ Some (V.origin (turn_value turn)) }
        requires entry { (e : V.Entry) × (V.session e ≡ (view seat.old).number)
            × (V.entries (turn_value turn) ≡ turn_list turn ++ e ∷ []) }
        ensures book { IsSeatOf self.now seat.new }
        ensures place { result ≡ length (turn_list turn) }
        ensures seat { (e : V.Entry) → V.entries (turn_value turn) ≡ turn_list turn ++ e ∷ []
            → view seat.new ≡ after_turn (view seat.old) (turn_list turn) e }
    {
        let place = self.place::<Brand>(seat, &turn.value);
        let Turn { value, at: _ } = turn;
        let old = self.table.shared.exchange(&mut seat.seat, 0, Some(value));
        let None = old else { unreachable!() };
        self.table.shared.fetch_add::<Serve>(&mut seat.seat, 2, 1);
        place
    }

    /// A session seat with the next number and so many of the opening seat's turns.
    pub fn split(&self, seat: &mut BookSeat<V>, turns: u64) -> BookSeat<V>
        requires book { IsSeatOf self.now seat.old }
        requires opening { IsOpening seat.old }
        requires turns { turns ≤ (view seat.old).left }
        ensures book { IsSeatOf self.now seat.new }
        ensures new_book { IsSeatOf self.now result }
        ensures seat { view seat.new ≡ handing turns (view seat.old) }
        ensures new { view result ≡ newcomer turns (view seat.old) }
        ensures none { own V.session (view result).number (view result).seen ≡ [] }
    {
        self.table.shared.load::<Know>(&mut seat.seat, 0);
        self.hand::<Brand>(seat, turns)
    }

    /// The opening seat takes in a session seat: its turns, what it has seen and what it made.
    pub fn join(&self, seat: &mut BookSeat<V>, other: BookSeat<V>)
        requires book { IsSeatOf self.now seat.old }
        requires other_book { IsSeatOf self.now other }
        requires opening { IsOpening seat.old }
        requires session { IsSession other }
        requires idle { HoldsNoTurn other }
        ensures book { IsSeatOf self.now seat.new }
        ensures seat { view seat.new ≡ ending (view seat.old) (view other) }
        ensures begun { StartsWith (view seat.new).seen (view seat.old).seen }
        ensures told { StartsWith (view seat.new).seen (view other).seen }
        ensures pairs { HasPairs V.session (view seat.new).seen (view seat.new).ended }
        ensures numbers { AllByRecursion (IsGiven V.session (view seat.new).given) (view seat.new).seen }
    {
        let BookSeat { seat: other } = other;
        self.table.shared.join_seat::<End>(&mut seat.seat, other);
        self.table.shared.load::<Know>(&mut seat.seat, 0);
    }

    /// The value, once each session has been joined.
    pub fn close(self, seat: BookSeat<V>) -> V
        requires book { IsSeatOf self seat }
        requires opening { IsOpening seat }
        requires ended { HasEndedAll (view seat) }
        ensures origin { (view seat).origin ≡ Some (V.origin result) }
        ensures list { V.entries result ≡ (view seat).seen }
        ensures pairs { HasPairs V.session (V.entries result) (view seat).ended }
        ensures numbers { AllByRecursion (IsGiven V.session (view seat).given) (V.entries result) }
    {
        let Book { table } = self;
        let BookSeat { seat } = seat;
        let mut closed = table.close_with(seat);
        let Some(value) = closed.take(0) else {
            unreachable!()
        };
        closed.free();
        value
    }
}
