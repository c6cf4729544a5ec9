// What a seat of a book knows, as plain data. No value of these types is made.
use std::collections::LinkedList;

/// What a seat is for.
pub enum Role {
    /// The seat that `open` gave. It takes no turns.
    Opening,
    /// A seat that `split` gave.
    Session,
    /// What is left of a seat that was joined.
    Spent,
}

/// How far a seat is with a turn.
pub enum Stage<E> {
    /// It has no ticket and holds no turn.
    Idle,
    /// It waits with this ticket.
    Waits(u64),
    /// It holds the turn of this ticket, and this list is the turn's.
    Out(u64, LinkedList<E>),
    /// Its one entry has its place in the list; the value is on its way back.
    Placed(u64, LinkedList<E>),
}

/// A joined seat: its number, and the entries that it made.
pub struct Ended<E> {
    /// From 1 on.
    pub number: u64,
    /// In the order in which they were made.
    pub entries: LinkedList<E>,
}

/// What a seat knows.
pub struct View<O, E> {
    /// What the seat is for.
    pub role: Role,
    /// The value's origin; a spent seat has none.
    pub origin: Option<O>,
    /// The turns that the book was opened with.
    pub total: u64,
    /// 0 for the opening seat, and from 1 on for the others.
    pub number: u64,
    /// The list as far as the seat has seen it.
    pub seen: LinkedList<E>,
    /// The turns that the seat has left, to take or to hand over.
    pub left: u64,
    /// Of the opening seat: how many numbers it has given.
    pub given: u64,
    /// Of the opening seat: the seats that it has joined.
    pub ended: LinkedList<Ended<E>>,
    /// Of the opening seat, for the proof alone: what it had seen before its last join.
    pub begun: LinkedList<E>,
    /// Of the opening seat, for the proof alone: what the seat that it joined last had seen.
    pub told: LinkedList<E>,
    /// Of a session seat: the entries that it made, in order.
    pub made: LinkedList<E>,
    /// How far the seat is with a turn.
    pub stage: Stage<E>,
}
