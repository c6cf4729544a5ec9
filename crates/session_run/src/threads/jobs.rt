//! What a session takes to a thread, and what it brings back.
use super::ran::Ran;
use pinned_reader::Row;
use session_script::Call;
use turn_book::BookSeat;
use version_store::Hall;

/// A session that has made no call.
#[derive(Drop)]
pub struct Job<'a> {
    /// Its seat, with a turn for each shared call.
    pub seat: BookSeat<Hall<Row>>,
    /// Its number, from 1 on.
    pub number: u16,
    /// Its calls.
    pub script: &'a [Call],
}

/// A session that has made its calls.
#[derive(Drop)]
pub struct Done {
    /// Its seat.
    pub seat: BookSeat<Hall<Row>>,
    /// What it replied.
    pub ran: Ran,
}
