// A hall as the value of a turn book.
ghost use Rattle.std.specs.Prelude.{◌≡◌, ◌≤◌, ⊤, Some, IfOk};
ghost use Rattle.turn_book.specs.Seats.{view, IsSeatOf, IsSession, HoldsNoTurn};
ghost use Rattle.version_store.specs.Turns.{HasCalls};

use crate::{Follows, Hall, HallAct, HallEntry, calls_keep_the_origin, turns_find_room};
use std::alloc::Global;
use std::sync::{Arc, Wait};
use std::test::Fail;
use turn_book::{Book, BookSeat};

#[derive(Drop)]
struct Plain;

impl Follows for Plain {
    ghost follows = { λ _ _. ⊤ };
}

// Publishes a row on the head, in a turn of its own. Answers the entry's place.
fn publish_in_turn<W: Wait>(
    rt: &W,
    book: &Book<Hall<Plain>>,
    seat: &mut BookSeat<Hall<Plain>>,
    session: u16,
    row: Arc<Plain, Global>,
) -> u64
    requires book { IsSeatOf book.now seat.old }
    requires session { IsSession seat.old × HoldsNoTurn seat.old }
    requires number { (view seat.old).number ≡ session }
    requires left { 1 ≤ (view seat.old).left }
    requires calls { HasCalls (view seat.old) }
    ensures book { IsSeatOf book.now seat.new }
    ensures session { IsSession seat.new × HoldsNoTurn seat.new }
    ensures number { (view seat.new).number ≡ session }
{
    turns_find_room::<Plain>();
    calls_keep_the_origin::<Plain>();
    let mut turn = book.take_turn(rt, seat);
    let hall = turn.value();
    let head = hall.head();
    let _ = hall.publish(session, head, row);
    book.give_back(seat, turn)
}

#[test]
fn a_hall_is_taken_in_turn(rt: HostRuntime) -> Result<(), Fail> {
    let alloc = rt.alloc();
    let hall = Hall::open(alloc, Arc::new(alloc, Plain)?, 2)?;
    let (book, mut seat) = Book::open(alloc, hall, 2)?;
    let mut one = book.split(&mut seat, 1);
    let mut two = book.split(&mut seat, 1);
    let first = publish_in_turn(&rt, &book, &mut two, 2, Arc::new(alloc, Plain)?);
    let second = publish_in_turn(&rt, &book, &mut one, 1, Arc::new(alloc, Plain)?);
    assert!(rt; (first, second) == (0, 1));
    book.join(&mut seat, one);
    book.join(&mut seat, two);
    let hall = book.close(seat);
    let entries = [
        HallEntry {
            session: 2,
            act: HallAct::Publish(0),
        },
        HallEntry {
            session: 1,
            act: HallAct::Publish(1),
        },
    ];
    assert!(rt; hall.head() == 2 && hall.entries() == entries.as_slice());
    Ok(())
}
