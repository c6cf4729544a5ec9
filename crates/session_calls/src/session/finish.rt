//! What a shared call does after its turn.
ghost use Rattle.std.specs.Prelude.{◌≡◌, List, [], Some, ◌≢◌, OnErr, IfOk, IfErr, Ok, Err, slice_get};
ghost use Rattle.std.specs.Arc.{arc_value};
ghost use Rattle.netlist_model.specs.Edits.{edited};
ghost use Rattle.netlist_model.specs.Sound.{Fits};
ghost use Rattle.session_machine.specs.Table.{Act, rebased};
ghost use Rattle.session_machine.specs.declared.replies.Reply.TheVariants as reply;
ghost use Rattle.pinned_reader.specs.Rows.{RowState};
ghost use Rattle.session_calls.specs.Ahead.{ahead_in, Moved};
ghost use Rattle.session_calls.specs.States.{SessionState, holding_of};
ghost use Rattle.session_calls.specs.Turns.{IsActOf, IsNext, IsTaken, Finishes};
ghost use Rattle.session_calls.specs.Wants.{WantsMemory};

use super::{Held, Session, Taken};
use edit_log::{EditFault, apply};
use netlist_model::{Edit, Netlist};
use pinned_reader::{Pinned, Row};
use session_machine::{Refusal, Reply};
use std::alloc::{AllocError, Global};
use std::sync::Arc;
use version_store::Pin;

impl Session {
    /// The reply to what was taken, and the session with it. A rebase of a draft costs a copy of the row's netlist and the draft on it.
    /// `AllocError` only for want of memory: where it was told in the turn, or of such a copy; and then the session is as it was.
    pub fn finish(&mut self, taken: Taken) -> Result<Reply, AllocError>
        requires { (m : Act) × IsActOf self.old taken m }
        ensures finishes { (m : Act) (rs : List RowState) → IsTaken self.old m rs taken → IfOk result (λ r. Finishes self.old self.new m rs r) }
        ensures unchanged { OnErr result (self.new ≡ self.old) }
        ensures memory { OnErr result (WantsMemory taken) }
    {
        match taken {
            Taken::Pass(reply) => Ok(reply),
            Taken::Pinned(pin) => Ok(self.pinned(pin)),
            Taken::NoVersion(head) => Ok(Reply::Refused(Refusal::NoVersion(u64::from(head)))),
            Taken::Rebase(pin) => self.rebased(pin),
            Taken::Published(number, row) => Ok(self.published(number, row)),
            Taken::Stale(head) => Ok(Reply::Refused(Refusal::Stale(u64::from(head)))),
            Taken::Full => Ok(Reply::Refused(Refusal::Full)),
            Taken::Memory => Err(AllocError),
        }
    }

    /// The session has this pin.
    fn pinned(&mut self, pin: Pin<Row>) -> Reply
        requires { self.old.draft ≡ [] }
        ensures reply { result ≡ reply.Pinned pin.number }
        ensures held { self.new ≡ record { number = self.old.number; pin = Some (pin.number, arc_value pin.row); draft = self.old.draft } }
    {
        pin.row.right();
        let number = u64::from(pin.number);
        self.held = Some(held_of(pin, None));
        Reply::Pinned(number)
    }

    /// The session has this pin, if its draft goes there.
    fn rebased(&mut self, pin: Pin<Row>) -> Result<Reply, AllocError>
        ensures finishes { (rs : List RowState) → slice_get rs pin.number ≡ Some (arc_value pin.row) →
            IfOk result (λ r. Finishes self.old self.new (rebased (holding_of self.old) pin.number
            (edited (arc_value pin.row).library self.old.draft (arc_value pin.row).netlist)) rs r) }
        ensures unchanged { OnErr result (self.new ≡ self.old) }
    {
        match draft_on(&pin.row, self.draft.as_slice()) {
            Ok(edited) => {
                let number = u64::from(pin.number);
                self.held = Some(held_of(pin, edited));
                Ok(Reply::Rebased(number))
            }
            Err(EditFault::At(at, fault)) => Ok(Reply::Refused(Refusal::Edit(at as u64, fault))),
            Err(EditFault::Memory) => Err(AllocError),
        }
    }

    /// The draft is this version.
    fn published(&mut self, number: u32, row: Arc<Row, Global>) -> Reply
        requires { IsNext self.old (arc_value row) }
        ensures ok { result ≡ reply.Published number }
        ensures held { self.new ≡ record { number = self.old.number; pin = Some (number, arc_value row); draft = [] } }
    {
        row.right();
        move_pin(&mut self.held, Pinned { number, row });
        self.draft.clear();
        Reply::Published(u64::from(number))
    }
}

/// A pin, and the netlist after the draft there.
fn held_of(pin: Pin<Row>, edited: Option<Netlist>) -> Held
    ensures { result ≡ record { pin = record { number = pin.number; row = pin.row }; edited = edited } }
{
    let pin = Pinned {
        number: pin.number,
        row: pin.row,
    };
    Held { pin, edited }
}

/// The netlist that the draft makes of the row's, where it has an edit.
fn draft_on(row: &Row, draft: &[Edit]) -> Result<Option<Netlist>, EditFault>
    ensures made { IfOk result (λ n. edited row.now.library draft.now row.now.netlist ≡ Ok (ahead_in row.now n)) }
    ensures fits { IfOk result (λ n. Fits row.now.library (ahead_in row.now n).insts) }
    ensures refused { IfErr result (λ e. e ≢ EditFault.Memory → edited row.now.library draft.now row.now.netlist ≡ Err e) }
{
    if draft.is_empty() {
        row.right();
        return Ok(None);
    }
    let edited = after_draft(row, draft)?;
    Ok(Some(edited))
}

/// A copy of the row's netlist after the draft.
fn after_draft(row: &Row, draft: &[Edit]) -> Result<Netlist, EditFault>
    ensures made { IfOk result (λ n. edited row.now.library draft.now row.now.netlist ≡ Ok n) }
    ensures fits { IfOk result (λ n. Fits row.now.library n.insts) }
    ensures refused { IfErr result (λ e. e ≢ EditFault.Memory → edited row.now.library draft.now row.now.netlist ≡ Err e) }
{
    row.right();
    apply(&row.library, &row.netlist, draft)
}

/// What is held is pinned at another row.
fn move_pin(held: &mut Option<Held>, pin: Pinned)
    ensures { Moved pin held.old held.new }
{
    if let Some(held) = held {
        held.pin = pin;
    }
}
