// An entry with no row, and handles on rows.
ghost use Rattle.std.specs.Prelude.{◌≡◌, ◌<◌, ◌≤◌, false, None, Err, IfOk, IfErr};
ghost use Rattle.version_store.specs.declared.faults.PinFault.TheVariants.{NoVersion, Memory};
ghost use Rattle.version_store.specs.Halls.{head_of, noted, takes};
ghost use Rattle.version_store.specs.Answers.{IsPin};

use super::{Hall, Pin};
use crate::entry::{HallAct, HallEntry};
use crate::faults::PinFault;
use crate::follows::Follows;
use std::alloc::AllocError;
use std::sync::Arc;

impl<R: Follows + Drop> Hall<R> {
    // Adds an entry that appends no row.
    pub(super) fn note(&mut self, session: u16, act: HallAct)
        requires room { 0 < self.old.room }
        requires plain { takes (head_of self.old) act ≡ false }
        ensures { self.new ≡ noted self.old session act None }
    {
        self.entries.push_reserved(HallEntry { session, act });
        self.room -= 1;
    }

    // A handle on the row of that number.
    pub(super) fn pin(&self, number: u32) -> Result<Pin<R>, AllocError>
        requires { number ≤ head_of self.now }
        ensures { IfOk result (λ p. IsPin self.now number p) }
    {
        let row = if number == 0 {
            Arc::try_clone(&self.base)?
        } else {
            Arc::try_clone(&self.rows[number as usize - 1])?
        };
        Ok(Pin { number, row })
    }

    // A handle on the row of that number, if there is one.
    pub(super) fn find(&self, number: u64) -> Result<Pin<R>, PinFault>
        ensures missing { head_of self.now < number → result ≡ Err (NoVersion (head_of self.now)) }
        ensures pin { number ≤ head_of self.now → IfOk result (λ p. IsPin self.now number p) }
        ensures memory { number ≤ head_of self.now → IfErr result (λ e. e ≡ Memory) }
    {
        let head = self.head();
        if number > head as u64 {
            return Err(PinFault::NoVersion(head));
        }
        Ok(self.pin(number as u32)?)
    }
}
