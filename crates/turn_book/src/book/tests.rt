// A book over a list of session numbers.
ghost use Rattle.std.specs.Prelude.{◌≡◌, ◌+◌, ◌*◌, ◌^◌, ◌<◌, ◌≤◌, ◌++◌, [], ◌∷◌, ℕ, List, length, replicate, vec_capacity, Some, IfOk};
ghost use Rattle.turn_book.specs.Views.{opening, after_turn};
ghost use Rattle.turn_book.specs.Seats.{view, IsSeatOf, IsSession, HoldsNoTurn};
ghost use Rattle.turn_book.specs.Ready.{IsReady};

use super::{Book, BookSeat};
use crate::stands::Stands;
use std::alloc::{AllocError, Global};
use std::sync::Wait;
use std::sync::atomic::{AtomicU64, Ordering};
use std::test::Fail;
use std::thread;
use std::thread::{Threads, join};

// How often a thread looks for what another does before it gives up.
const LOOKS: u64 = 1_000_000_000;

#[derive(Drop)]
struct Log {
    numbers: Vec<u32>,
    room: u64,
    ghost roomy: { room ≤ vec_capacity numbers },
}

impl Stands for Log {
    type Origin = u64;

    type Entry = u32;

    ghost origin = { λ log. log.room };

    ghost entries = { λ log. log.numbers.items };

    ghost session = { λ number. number };
}

impl Log {
    fn push(&mut self, number: u32)
        requires { length self.old.numbers.items < self.old.room }
        ensures numbers { self.new.numbers.items ≡ self.old.numbers.items ++ number ∷ [] }
        ensures room { self.new.room ≡ self.old.room }
    {
        self.numbers.push_reserved(number);
    }
}

// A book of an empty list, with so many turns.
fn book_of(alloc: Global, turns: u64) -> Result<(Book<Log>, BookSeat<Log>), AllocError>
    ensures book { IfOk result (λ r. IsSeatOf r.0 r.1) }
    ensures seat { IfOk result (λ r. view r.1 ≡ opening turns turns) }
{
    let log = Log {
        numbers: Vec::with_capacity(alloc, turns as usize)?,
        room: turns,
    };
    Book::open(alloc, log, turns)
}

// Takes one turn and answers the place of its entry.
fn one_turn<R: Wait>(rt: &R, book: &Book<Log>, seat: &mut BookSeat<Log>, number: u32) -> u64
    requires book { IsSeatOf book.now seat.old }
    requires session { IsSession seat.old × HoldsNoTurn seat.old }
    requires number { (view seat.old).number ≡ number }
    requires left { 1 ≤ (view seat.old).left }
    requires room { (room : ℕ) × ((view seat.old).origin ≡ Some room) × ((view seat.old).total ≤ room) }
    ensures book { IsSeatOf book.now seat.new }
    ensures seat { (l : List ℕ) × (view seat.new ≡ after_turn (view seat.old) l number) × (result ≡ length l) }
{
    let mut turn = book.take_turn(rt, seat);
    turn.value().push(number);
    book.give_back(seat, turn)
}

// Takes all turns of the seat.
fn all_turns<R: Wait>(
    rt: &R,
    book: &Book<Log>,
    mut seat: BookSeat<Log>,
    number: u32,
    turns: u64,
) -> BookSeat<Log>
    requires { IsReady book.now seat number turns [] }
    ensures { IsReady book.now result number 0 (replicate turns number) }
{
    for _ in 0..turns {
        one_turn(rt, book, &mut seat, number);
    }
    seat
}

// Two threads take so many turns each.
fn two_threads<R: Wait + Threads + Sync>(
    rt: &R,
    alloc: Global,
    turns: u64,
) -> Result<Log, AllocError>
    requires { turns < 2 ^ 32 }
{
    let (book, mut seat) = book_of(alloc, 2 * turns)?;
    let one = book.split(&mut seat, turns);
    let two = book.split(&mut seat, turns);
    let (one, two) = join(
        rt,
        || -> BookSeat<Log>
            requires { IsReady book one 1 turns [] }
            ensures { IsReady book result 1 0 (replicate turns 1) }
        { all_turns(rt, &book, one, 1, turns) },
        || -> BookSeat<Log>
            requires { IsReady book two 2 turns [] }
            ensures { IsReady book result 2 0 (replicate turns 2) }
        { all_turns(rt, &book, two, 2, turns) },
    );
    book.join(&mut seat, one);
    book.join(&mut seat, two);
    Ok(book.close(seat))
}

// On one thread seat 1 makes an entry, then seat 2, and the opening seat joins both. Answers the entries' places too.
fn one_each<R: Wait>(rt: &R, alloc: Global) -> Result<(Log, u64, u64), AllocError> {
    let (book, mut seat) = book_of(alloc, 2)?;
    let mut one = book.split(&mut seat, 1);
    let mut two = book.split(&mut seat, 1);
    let first = one_turn(rt, &book, &mut one, 1);
    let second = one_turn(rt, &book, &mut two, 2);
    book.join(&mut seat, two);
    book.join(&mut seat, one);
    Ok((book.close(seat), first, second))
}

// Whether the word comes to be the number before so many looks are over.
fn comes_to(book: &Book<Log>, word: usize, number: u64) -> bool
    requires { word < 4 }
{
    for _ in 0..LOOKS {
        if book.table.shared.peek(word) == number {
            return true;
        }
        thread::yield_now();
    }
    false
}

// Takes a turn, and holds it until the other thread has drawn its ticket. Answers whether it did.
fn held_turn<R: Wait>(
    rt: &R,
    book: &Book<Log>,
    mut seat: BookSeat<Log>,
    is_held: &AtomicU64,
) -> (BookSeat<Log>, bool)
    requires { IsReady book.now seat 1 1 [] }
    ensures { IsReady book.now result.0 1 0 (1 ∷ []) }
{
    let mut turn = book.take_turn(rt, &mut seat);
    turn.value().push(1);
    is_held.store(1, Ordering::SeqCst);
    let was_drawn = comes_to(book, 1, 2);
    book.give_back(&mut seat, turn);
    (seat, was_drawn)
}

// Draws its ticket once the other thread holds a turn. Answers whether it held one.
fn later_turn<R: Wait>(
    rt: &R,
    book: &Book<Log>,
    mut seat: BookSeat<Log>,
    is_held: &AtomicU64,
) -> (BookSeat<Log>, bool)
    requires { IsReady book.now seat 2 1 [] }
    ensures { IsReady book.now result.0 2 0 (2 ∷ []) }
{
    let mut was_held = false;
    for _ in 0..LOOKS {
        if is_held.load(Ordering::SeqCst) == 1 {
            was_held = true;
            break;
        }
        thread::yield_now();
    }
    one_turn(rt, book, &mut seat, 2);
    (seat, was_held)
}

// One thread draws a ticket while another holds the turn.
fn drawn_in_a_turn<R: Wait + Threads + Sync>(
    rt: &R,
    alloc: Global,
) -> Result<(Log, bool), AllocError> {
    let (book, mut seat) = book_of(alloc, 2)?;
    let one = book.split(&mut seat, 1);
    let two = book.split(&mut seat, 1);
    let is_held = AtomicU64::new(0);
    let ((one, was_drawn), (two, was_held)) = join(
        rt,
        || -> (BookSeat<Log>, bool)
            requires { IsReady book one 1 1 [] }
            ensures { IsReady book result.0 1 0 (1 ∷ []) }
        { held_turn(rt, &book, one, &is_held) },
        || -> (BookSeat<Log>, bool)
            requires { IsReady book two 2 1 [] }
            ensures { IsReady book result.0 2 0 (2 ∷ []) }
        { later_turn(rt, &book, two, &is_held) },
    );
    book.join(&mut seat, one);
    book.join(&mut seat, two);
    Ok((book.close(seat), was_drawn && was_held))
}

#[test]
fn two_threads_take_a_thousand_turns_each(rt: HostRuntime) -> Result<(), Fail> {
    let log = two_threads(&rt, rt.alloc(), 1000)?;
    let ones = log.numbers.iter().filter(|n| **n == 1).count();
    let twos = log.numbers.iter().filter(|n| **n == 2).count();
    assert!(rt; log.numbers.len() == 2000 && ones == 1000 && twos == 1000);
    Ok(())
}

#[test]
fn entries_stand_in_the_order_of_the_turns(rt: HostRuntime) -> Result<(), Fail> {
    let (log, first, second) = one_each(&rt, rt.alloc())?;
    assert!(rt; log.numbers.as_slice() == [1, 2].as_slice() && (first, second) == (0, 1));
    Ok(())
}

#[test]
fn a_ticket_is_drawn_while_another_holds_the_turn(rt: HostRuntime) -> Result<(), Fail> {
    let (log, was_drawn) = drawn_in_a_turn(&rt, rt.alloc())?;
    assert!(rt; was_drawn && log.numbers.as_slice() == [1, 2].as_slice());
    Ok(())
}
