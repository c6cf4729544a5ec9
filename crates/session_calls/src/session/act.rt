//! The turn of a shared call.
ghost use Rattle.std.specs.Prelude.{◌≡◌, ◌<◌, Option};
ghost use Rattle.version_store.specs.Halls.{Chain, noted, rows_of};
ghost use Rattle.pinned_reader.specs.Rows.{RowState, IsAfter};
ghost use Rattle.session_script.specs.declared.calls.Call.{Call};
ghost use Rattle.query_replies.specs.Readings.{Analyses};
ghost use Rattle.session_calls.specs.States.{rows, Knows, act_on};
ghost use Rattle.session_calls.specs.Turns.{IsReady, Turned, noted_act};
ghost use Rattle.session_calls.specs.Wants.{WantsHandle};
ghost use Rattle.session_calls.specs.declared.session.Taken.TheVariants.{Memory};

use super::{Ready, Session, Taken};
use pinned_reader::Row;
use std::alloc::AllocError;
use version_store::{Hall, HallFault, PinFault};

impl Session {
    /// Takes of the hall what the call wants, and adds one entry to it. The session stays as it was. `Memory` only where a handle on a row
    /// was wanted, and only for want of memory.
    pub fn act(&self, ready: Ready, hall: &mut Hall<Row>) -> Taken
        requires room { 0 < hall.old.room }
        requires ready { (all : Analyses) × (c : Call) × IsReady all self.now c ready }
        requires known { Knows (rows hall.old) self.now }
        ensures memory { result ≡ Memory → WantsHandle ready }
        ensures entry { (row : Option RowState) × (hall.new ≡ noted hall.old self.now.number (noted_act self.now ready) row) }
        ensures turned { (all : Analyses) (c : Call) → hall.old.base.library ≡ all.library → IsReady all self.now c ready →
            Turned self.now (act_on all (rows hall.old) self.now c) hall.old hall.new ready result }
        ensures chain { Chain IsAfter hall.new.base (rows_of hall.new.items) }
    {
        let taken = self.turn(ready, hall);
        hall.is_chain();
        taken
    }

    /// The turn in the hall.
    fn turn(&self, ready: Ready, hall: &mut Hall<Row>) -> Taken
        requires room { 0 < hall.old.room }
        requires ready { (all : Analyses) × (c : Call) × IsReady all self.now c ready }
        requires known { Knows (rows hall.old) self.now }
        ensures memory { result ≡ Memory → WantsHandle ready }
        ensures entry { (row : Option RowState) × (hall.new ≡ noted hall.old self.now.number (noted_act self.now ready) row) }
        ensures turned { (all : Analyses) (c : Call) → hall.old.base.library ≡ all.library → IsReady all self.now c ready →
            Turned self.now (act_on all (rows hall.old) self.now c) hall.old hall.new ready result }
    {
        hall.is_chain();
        match ready {
            Ready::Pass(reply) => {
                hall.pass(self.number);
                Taken::Pass(reply)
            }
            Ready::Latest => match hall.pin_latest(self.number) {
                Ok(pin) => Taken::Pinned(pin),
                Err(AllocError) => Taken::Memory,
            },
            Ready::At(number) => match hall.pin_at(self.number, number) {
                Ok(pin) => Taken::Pinned(pin),
                Err(PinFault::NoVersion(head)) => Taken::NoVersion(head),
                Err(PinFault::Memory) => Taken::Memory,
            },
            Ready::Rebase => match hall.pin_latest(self.number) {
                Ok(pin) => Taken::Rebase(pin),
                Err(AllocError) => Taken::Memory,
            },
            Ready::Publish(row, again) => {
                let Some(held) = &self.held else {
                    unreachable!()
                };
                match hall.publish(self.number, held.pin.number, row) {
                    Ok(number) => Taken::Published(number, again),
                    Err(HallFault::Stale(head)) => Taken::Stale(head),
                    Err(HallFault::Full) => Taken::Full,
                }
            }
        }
    }
}
