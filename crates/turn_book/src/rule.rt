// The rule of a book, and a name for each of its atomic steps.
use crate::stands::Stands;
use crate::view::View;
use atomic_table::{Join, Play, Split, TableRule};
use std::marker::{Brand, PhantomData};
use std::snapshot::Snapshot;

/// What a book is opened with.
#[derive(Drop)]
pub struct Start<V> {
    /// The value, as it was handed in.
    pub value: Snapshot<V>,
    /// The turns of all seats.
    pub total: u64,
}

/// The rule.
pub struct InTurn;

impl<V: Stands> TableRule<Option<V>, View<V::Origin, V::Entry>, Start<V>> for InTurn {
    ghost use Rattle.turn_book.specs.Views.{opening};
    ghost use Rattle.turn_book.specs.Rule.{Holds};

    ghost holds = { λ key. Holds V.origin V.entries V.session (V.origin key.value.value) key.total };

    ghost first = { λ key. opening (V.origin key.value.value) key.total };
}

// fetch_add on word 1: draws a ticket.
pub(crate) struct Draw;

impl<V: Stands> Play<Option<V>, View<V::Origin, V::Entry>> for Draw {
    ghost use Rattle.turn_book.specs.Steps.{drew};

    ghost then = { drew };
}

// load of word 2: is the ticket served?
pub(crate) struct Look;

impl<V: Stands> Play<Option<V>, View<V::Origin, V::Entry>> for Look {
    ghost use Rattle.turn_book.specs.Steps.{looked};

    ghost then = { looked V.origin V.entries V.session };
}

// The entry that a seat places, for the proof alone. A call at `Brand` picks it.
pub(crate) trait Names<E> {
    ghost use Rattle.std.specs.Prelude.{Option};

    ghost entry: { Option E };
}

impl<E> Names<E> for Brand {
    ghost use Rattle.std.specs.Prelude.{None};

    ghost entry = { None };
}

// fetch_add on word 3: the entry has its place in the order.
pub(crate) struct Place<N> {
    names: PhantomData<N>,
}

impl<V: Stands, N: Names<V::Entry>> Play<Option<V>, View<V::Origin, V::Entry>> for Place<N> {
    ghost use Rattle.turn_book.specs.Steps.{placed};

    ghost then = { placed N.entry };
}

// load of word 0: the opening seat is told what the rule says of it.
pub(crate) struct Know;

impl<V: Stands> Play<Option<V>, View<V::Origin, V::Entry>> for Know {
    ghost use Rattle.turn_book.specs.Steps.{knew};

    ghost then = { knew V.session };
}

// fetch_add on word 2: serves the next ticket.
pub(crate) struct Serve;

impl<V: Stands> Play<Option<V>, View<V::Origin, V::Entry>> for Serve {
    ghost use Rattle.turn_book.specs.Steps.{ended_turn};

    ghost then = { ended_turn };
}

// How many turns a split hands over, for the proof alone. A call at `Brand` picks it.
pub(crate) trait Amount {
    ghost use Rattle.std.specs.Prelude.{ℕ};

    ghost turns: { ℕ };
}

impl Amount for Brand {
    ghost turns = { 0 };
}

// split_seat: hands over turns and a number.
pub(crate) struct Hand<N> {
    amount: PhantomData<N>,
}

impl<O, E, N: Amount> Split<View<O, E>> for Hand<N> {
    ghost use Rattle.turn_book.specs.Views.{handing, newcomer};

    ghost left = { handing N.turns };

    ghost right = { newcomer N.turns };
}

// join_seat: ends a session.
pub(crate) struct End;

impl<O, E> Join<View<O, E>> for End {
    ghost use Rattle.turn_book.specs.Views.{ending, spent};

    ghost both = { ending };

    ghost spent = { spent };
}
