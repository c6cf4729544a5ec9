// The calls of a hall.
ghost use Rattle.std.specs.Prelude.{◌≡◌, ℕ, ◌+◌, ◌<◌, ◌≤◌, [], ◌∷◌, ◌++◌, length, map, None, Ok, Err, IfOk, IfErr};
ghost use Rattle.std.specs.Arc.{arc_value};
ghost use Rattle.version_store.specs.declared.entry.HallAct.TheVariants.{Latest, At, Publish, Pass};
ghost use Rattle.version_store.specs.declared.faults.PinFault.TheVariants.{NoVersion, Memory};
ghost use Rattle.version_store.specs.Halls.{Chain, HasRows, FollowsRow, opened, head_of, noted, rows_of, published, row_limit};
ghost use Rattle.version_store.specs.Answers.{IsPin, answer_of};

use super::{Hall, MOST_ROWS, Pin};
use crate::entry::{HallAct, HallEntry};
use crate::faults::{HallFault, PinFault};
use crate::follows::Follows;
use std::alloc::{AllocError, Global};
use std::sync::Arc;

impl<R: Follows + Drop> Hall<R> {
    /// A hall with this row as version 0, and room for so many calls.
    ///
    /// # Errors
    /// Want of memory. The handle is then given up.
    pub fn open(alloc: Global, base: Arc<R, Global>, calls: u64) -> Result<Hall<R>, AllocError>
        ensures { IfOk result (λ h. h ≡ opened (arc_value base) calls) }
    {
        let rows = Vec::with_capacity(alloc, MOST_ROWS as usize - 1)?;
        let entries = Vec::with_capacity(alloc, calls as usize)?;
        Ok(Hall {
            base,
            rows,
            entries,
            room: calls,
        })
    }

    /// The number of the newest row.
    pub fn head(&self) -> u32
        ensures head { result ≡ head_of self.now }
        ensures few { result < row_limit }
        ensures chain { Chain R.follows self.now.base (rows_of self.now.items) }
        ensures rows { HasRows 0 self.now.items }
    {
        self.rows.len() as u32
    }

    /// Makes known that each row follows the row before it. It does nothing.
    pub fn is_chain(&self)
        ensures { Chain R.follows self.now.base (rows_of self.now.items) }
    {
        let _ = &self.rows;
    }

    /// A handle on the newest row.
    ///
    /// # Errors
    /// Want of memory for the handle; the entry is made all the same.
    pub fn pin_latest(&mut self, session: u16) -> Result<Pin<R>, AllocError>
        requires { 0 < self.old.room }
        ensures entry { self.new ≡ noted self.old session Latest None }
        ensures pin { IfOk result (λ p. IsPin self.old (head_of self.old) p) }
    {
        let pin = self.pin(self.head());
        self.note(session, HallAct::Latest);
        pin
    }

    /// A handle on the row of that number.
    ///
    /// # Errors
    /// `NoVersion` exactly where the number is above the head; else want of memory for the handle. The entry is made all the same.
    pub fn pin_at(&mut self, session: u16, number: u64) -> Result<Pin<R>, PinFault>
        requires { 0 < self.old.room }
        ensures entry { self.new ≡ noted self.old session (At number) None }
        ensures missing { head_of self.old < number → result ≡ Err (NoVersion (head_of self.old)) }
        ensures pin { number ≤ head_of self.old → IfOk result (λ p. IsPin self.old number p) }
        ensures memory { number ≤ head_of self.old → IfErr result (λ e. e ≡ Memory) }
    {
        let found = self.find(number);
        self.note(session, HallAct::At(number));
        found
    }

    /// Appends a row that follows the row of that number, where that is the newest. Answers its number. Takes no memory.
    ///
    /// # Errors
    /// `Stale` exactly where the base is below the head, and else `Full` exactly where all rows stand that may. The entry is made all
    /// the same.
    pub fn publish(
        &mut self,
        session: u16,
        base: u32,
        row: Arc<R, Global>,
    ) -> Result<u32, HallFault>
        requires room { 0 < self.old.room }
        requires base { base ≤ head_of self.old }
        requires follows { FollowsRow R.follows self.old base (arc_value row) }
        ensures entry { self.new ≡ noted self.old session (Publish base) (published self.old base (arc_value row)) }
        ensures answer { result ≡ answer_of (head_of self.old) base }
    {
        let head = self.head();
        if base < head {
            self.note(session, HallAct::Publish(base));
            return Err(HallFault::Stale(head));
        }
        let next = head + 1;
        if next == MOST_ROWS {
            self.note(session, HallAct::Publish(base));
            return Err(HallFault::Full);
        }
        self.rows.push_reserved(row);
        self.entries.push_reserved(HallEntry {
            session,
            act: HallAct::Publish(base),
        });
        self.room -= 1;
        Ok(next)
    }

    /// An entry with no effect. Takes no memory.
    pub fn pass(&mut self, session: u16)
        requires { 0 < self.old.room }
        ensures { self.new ≡ noted self.old session Pass None }
    {
        self.note(session, HallAct::Pass);
    }

    /// The entries, in order.
    pub fn entries(&self) -> &[HallEntry]
        ensures { result.now ≡ map (λ i. i.entry) self.now.items }
    {
        self.entries.as_slice()
    }
}
