//! What a shared call does before its turn.
ghost use Rattle.std.specs.Prelude.{◌≡◌, ◌≢◌, ◌*◌, true, None, Some, IfOk, IfErr, length};
ghost use Rattle.netlist_analysis.specs.Findings.{IsNetlistFault, NamesBelow};
ghost use Rattle.pinned_reader.specs.Rows.{IsAfter};
ghost use Rattle.session_script.specs.Calls.{is_shared};
ghost use Rattle.session_script.specs.declared.calls.Call.TheVariants as call;
ghost use Rattle.session_machine.specs.declared.replies.Reply.TheVariants.{Refused};
ghost use Rattle.query_replies.specs.Readings.{Analyses, refusal_in};
ghost use Rattle.session_calls.specs.Ahead.{ahead_of, IsAhead, row_of};
ghost use Rattle.session_calls.specs.declared.session.Ready.TheVariants.{Pass};
ghost use Rattle.session_calls.specs.States.{IsOver};
ghost use Rattle.session_calls.specs.Turns.{IsOf, IsReady};

use super::{Held, Ready, Session};
use cell_arcs::Library;
use netlist_analysis::NetlistFault;
use netlist_analysis::laws::finding_is_unique;
use netlist_model::{Edit, Netlist};
use pinned_reader::Row;
use potentials::ArrivalMaker;
use query_replies::laws::rows_are_told;
use query_replies::net_refusal;
use session_machine::{Refusal, Reply};
use session_script::Call;
use std::alloc::{AllocError, Global};
use std::sync::Arc;
use std::thread::Threads;

/// A call that is refused.
fn refused(refusal: Refusal) -> Ready
    ensures { result ≡ Pass (Refused refusal) }
{
    Ready::Pass(Reply::Refused(refusal))
}

/// Two handles on a row.
fn handles(alloc: Global, row: Row) -> Result<Ready, AllocError>
    ensures { IfOk result (IsOf row) }
{
    let row = Arc::new(alloc, row)?;
    let again = Arc::try_clone(&row)?;
    Ok(Ready::Publish(row, again))
}

/// Why the netlist ahead is no version, by its fault.
fn fault_told(
    alloc: Global,
    library: &Library,
    netlist: &Netlist,
    fault: &NetlistFault,
) -> Result<Refusal, AllocError>
    requires within { NamesBelow (2 * length netlist.now.nets) fault.now }
    requires holds { fault.now ≢ NetlistFault.Memory → IsNetlistFault library.now netlist.now fault.now }
    ensures { (all : Analyses) → all.library ≡ library.now → IfOk result (λ f. refusal_in netlist.now.nets (all.tell netlist.now) ≡ Some f) }
{
    finding_is_unique();
    netlist.sound();
    net_refusal(alloc, netlist, fault)
}

/// The draft as a row, or why it is no version.
fn draft_after<R: Threads + Sync, M: ArrivalMaker>(
    rt: &R,
    alloc: Global,
    held: &Held,
    draft: &[Edit],
    maker: &M,
) -> Result<Result<Row, Refusal>, AllocError>
    requires { IsAhead draft.now held.now }
    ensures row { IfOk result (λ r. IfOk r (λ row. (row.edits ≡ draft.now) × IsAfter row (row_of held.now))) }
    ensures accepted { (all : Analyses) → all.library ≡ (row_of held.now).library →
        IfOk result (λ r. IfOk r (λ row. refusal_in (ahead_of held.now).nets (all.tell (ahead_of held.now)) ≡ None)) }
    ensures refused { (all : Analyses) → all.library ≡ (row_of held.now).library →
        IfOk result (λ r. IfErr r (λ f. refusal_in (ahead_of held.now).nets (all.tell (ahead_of held.now)) ≡ Some f)) }
{
    match Row::next(rt, alloc, &held.pin.row, draft, maker) {
        Ok(row) => {
            rows_are_told(&row);
            Ok(Ok(row))
        }
        Err(fault) => {
            let refusal = fault_told(alloc, &held.pin.row.library, held.ahead(), &fault)?;
            Ok(Err(refusal))
        }
    }
}

impl Held {
    /// The pinned netlist after the draft.
    fn ahead(&self) -> &Netlist
        ensures { result.now ≡ ahead_of self.now }
    {
        match &self.edited {
            Some(netlist) => netlist,
            None => &self.pin.row.netlist,
        }
    }
}

impl Session {
    /// All of a shared call that needs no hall: for a publish the analysis of the draft. The session stays as it was. `AllocError` only
    /// for want of memory.
    pub fn prepare<R: Threads + Sync, M: ArrivalMaker>(
        &self,
        rt: &R,
        alloc: Global,
        call: &Call,
        maker: &M,
    ) -> Result<Ready, AllocError>
        requires { is_shared call.now ≡ true }
        ensures { (all : Analyses) → IsOver all self.now → IfOk result (λ r. IsReady all self.now call.now r) }
    {
        match call {
            Call::Pin if self.draft.as_slice().is_empty() => Ok(Ready::Latest),
            Call::PinAt(number) if self.draft.as_slice().is_empty() => Ok(Ready::At(*number)),
            Call::Pin | Call::PinAt(_) => Ok(refused(Refusal::DraftOpen)),
            Call::Rebase if self.held.is_some() => Ok(Ready::Rebase),
            Call::Rebase => Ok(refused(Refusal::NotPinned)),
            Call::Publish => self.draft_row(rt, alloc, maker),
            _ => unreachable!(),
        }
    }

    /// The draft as a row.
    fn draft_row<R: Threads + Sync, M: ArrivalMaker>(
        &self,
        rt: &R,
        alloc: Global,
        maker: &M,
    ) -> Result<Ready, AllocError>
        ensures { (all : Analyses) → IsOver all self.now → IfOk result (λ r. IsReady all self.now call.Publish r) }
    {
        let Some(held) = &self.held else {
            return Ok(refused(Refusal::NotPinned));
        };
        if self.draft.as_slice().is_empty() {
            return Ok(refused(Refusal::EmptyDraft));
        }
        match draft_after(rt, alloc, held, self.draft.as_slice(), maker)? {
            Ok(row) => handles(alloc, row),
            Err(refusal) => Ok(refused(refusal)),
        }
    }
}
