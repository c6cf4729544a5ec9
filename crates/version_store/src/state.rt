// What contracts see of a hall. No value of these types is made.
use crate::entry::HallEntry;
use std::collections::LinkedList;

/// An entry, and the row that it appended, if any.
pub struct HallItem<R> {
    /// The entry.
    pub entry: HallEntry,
    /// The row of a publish that was answered Ok.
    pub row: Option<R>,
}

/// What a hall was opened with, which never changes.
pub struct HallOrigin<R> {
    /// The first row.
    pub base: R,
    /// The number of calls.
    pub calls: u64,
}

/// A hall: its first row, an item for each call so far, and how many calls are left.
pub struct HallState<R> {
    /// The first row.
    pub base: R,
    /// One item for each entry, in order.
    pub items: LinkedList<HallItem<R>>,
    /// How many more entries the hall has room for.
    pub room: u64,
}
