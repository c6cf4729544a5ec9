//! Local calls.
ghost use Rattle.std.specs.Prelude.{◌≡◌, [], false, Some, ⊤, IfOk, OnOk, OnErr, MatchOption, Ok};
ghost use Rattle.netlist_model.specs.Sound.{Fits};
ghost use Rattle.session_script.specs.Calls.{is_shared};
ghost use Rattle.session_script.specs.declared.calls.Call.TheVariants as call;
ghost use Rattle.query_replies.specs.Readings.{Analyses};
ghost use Rattle.netlist_model.specs.Edits.{made};
ghost use Rattle.session_calls.specs.Ahead.{ahead_in, edit_left, edit_refusal, FitsAhead, Renewed, Tried};
ghost use Rattle.session_calls.specs.States.{alone, holding_of, IsOver, local_by};

use super::{Held, Session};
use cell_arcs::Library;
use edit_log::laws::edits_are_joined;
use netlist_model::{Edit, EventName, Netlist, StatementFault};
use pinned_reader::Row;
use query_replies::laws::rows_are_told;
use query_replies::{arrival_reply, cycle_reply, period_reply, report_reply, slack_reply};
use session_machine::{Refusal, Reply};
use session_script::Call;
use std::alloc::{AllocError, Global};

impl Session {
    /// A local call: an edit, `drop`, `draft` or a query. An edit costs that edit, and the first one after a pin or a `drop` a copy of
    /// the pinned netlist; a query costs what it tells. `AllocError` only for want of memory, and then the session is as it was.
    pub fn step_local(&mut self, alloc: Global, call: &Call) -> Result<Reply, AllocError>
        requires { is_shared call.now ≡ false }
        ensures reply { (all : Analyses) → IsOver all self.old → IfOk result (λ r. r ≡ (local_by all self.old call.now).1) }
        ensures session { (all : Analyses) → IsOver all self.old → OnOk result (holding_of self.new ≡ (local_by all self.old call.now).0) }
        ensures pin { (self.new.pin ≡ self.old.pin) × (self.new.number ≡ self.old.number) }
        ensures unchanged { OnErr result (self.new ≡ self.old) }
    {
        self.told();
        self.step_alone(alloc, call)
    }

    /// Makes known what is told of the pinned row's netlist.
    fn told(&self)
        ensures { (all : Analyses) → IsOver all self.now → MatchOption self.now.pin ⊤ (λ p. all.tell p.1.netlist ≡ Ok p.1.analysis) }
    {
        if let Some(held) = &self.held {
            rows_are_told(&held.pin.row);
        }
    }

    /// A local call, by what the pinned row has.
    fn step_alone(&mut self, alloc: Global, call: &Call) -> Result<Reply, AllocError>
        requires { is_shared call.now ≡ false }
        ensures reply { IfOk result (λ r. r ≡ (alone self.old call.now).1) }
        ensures session { OnOk result (holding_of self.new ≡ (alone self.old call.now).0) }
        ensures pin { (self.new.pin ≡ self.old.pin) × (self.new.number ≡ self.old.number) }
        ensures unchanged { OnErr result (self.new ≡ self.old) }
    {
        match call {
            Call::Make(edit) => self.make(edit),
            Call::Drop => Ok(self.drop_draft()),
            Call::Draft => Ok(Reply::Draft(self.draft.len() as u64)),
            Call::Period => Ok(self.period()),
            Call::Cycle => self.cycle(alloc),
            Call::Arrival(event) => Ok(self.arrival(event)),
            Call::Slack(fork) => Ok(self.slack(fork.bytes())),
            Call::Report => self.report(alloc),
            Call::Pin | Call::PinAt(_) | Call::Rebase | Call::Publish => unreachable!(),
        }
    }

    /// An edit at the end of the draft.
    fn make(&mut self, edit: &Edit) -> Result<Reply, AllocError>
        ensures reply { IfOk result (λ r. r ≡ (alone self.old (call.Make edit.now)).1) }
        ensures session { OnOk result (holding_of self.new ≡ (alone self.old (call.Make edit.now)).0) }
        ensures pin { (self.new.pin ≡ self.old.pin) × (self.new.number ≡ self.old.number) }
        ensures unchanged { OnErr result (self.new ≡ self.old) }
    {
        edits_are_joined();
        let copy = edit.copy()?;
        self.draft.reserve(1)?;
        if let Some(refusal) = make_ahead(&mut self.held, edit)? {
            return Ok(Reply::Refused(refusal));
        }
        self.draft.push_reserved(copy);
        Ok(Reply::Edited(self.draft.len() as u64))
    }

    /// No draft.
    fn drop_draft(&mut self) -> Reply
        ensures reply { result ≡ (alone self.old call.Drop).1 }
        ensures session { holding_of self.new ≡ (alone self.old call.Drop).0 }
        ensures pin { (self.new.pin ≡ self.old.pin) × (self.new.number ≡ self.old.number) }
    {
        let length = self.draft.len() as u64;
        if length > 0 {
            renew(&mut self.held);
            self.draft.clear();
        }
        Reply::Dropped(length)
    }

    fn period(&self) -> Reply
        ensures { result ≡ (alone self.now call.Period).1 }
    {
        match &self.held {
            Some(held) => period_reply(&held.pin),
            None => Reply::Refused(Refusal::NotPinned),
        }
    }

    fn cycle(&self, alloc: Global) -> Result<Reply, AllocError>
        ensures { IfOk result (λ r. r ≡ (alone self.now call.Cycle).1) }
    {
        match &self.held {
            Some(held) => cycle_reply(alloc, &held.pin),
            None => Ok(Reply::Refused(Refusal::NotPinned)),
        }
    }

    fn arrival(&self, event: &EventName) -> Reply
        ensures { result ≡ (alone self.now (call.Arrival event.now)).1 }
    {
        match &self.held {
            Some(held) => arrival_reply(&held.pin, event),
            None => Reply::Refused(Refusal::NotPinned),
        }
    }

    fn slack(&self, fork: &[u8]) -> Reply
        ensures { result ≡ (alone self.now (call.Slack fork.now)).1 }
    {
        match &self.held {
            Some(held) => slack_reply(&held.pin, fork),
            None => Reply::Refused(Refusal::NotPinned),
        }
    }

    fn report(&self, alloc: Global) -> Result<Reply, AllocError>
        ensures { IfOk result (λ r. r ≡ (alone self.now call.Report).1) }
    {
        match &self.held {
            Some(held) => report_reply(alloc, &held.pin),
            None => Ok(Reply::Refused(Refusal::NotPinned)),
        }
    }
}

/// Makes an edit. Answers why it is refused, if it is.
fn make_over(
    library: &Library,
    netlist: &mut Netlist,
    edit: &Edit,
) -> Result<Option<Refusal>, AllocError>
    requires { Fits library.now netlist.old.insts }
    ensures refusal { IfOk result (λ r. r ≡ edit_refusal (made library.now netlist.old edit.now)) }
    ensures left { OnOk result (netlist.new ≡ edit_left netlist.old (made library.now netlist.old edit.now)) }
    ensures unchanged { OnErr result (netlist.new ≡ netlist.old) }
    ensures fits { Fits library.now netlist.new.insts }
{
    match netlist.make(library, edit) {
        Ok(()) => Ok(None),
        Err(StatementFault::Memory) => Err(AllocError),
        Err(fault) => Ok(Some(Refusal::Statement(fault))),
    }
}

/// Makes an edit on the netlist ahead. Answers why it is refused, if it is.
fn make_ahead(held: &mut Option<Held>, edit: &Edit) -> Result<Option<Refusal>, AllocError>
    requires { FitsAhead held.old }
    ensures tried { IfOk result (λ r. Tried edit.now held.old held.new r) }
    ensures unchanged { OnErr result (held.new ≡ held.old) }
    ensures fits { FitsAhead held.new }
{
    match held {
        Some(held) => make_on(&held.pin.row, &mut held.edited, edit),
        None => Ok(Some(Refusal::NotPinned)),
    }
}

/// Makes an edit on what was edited of a row's netlist, or on a copy of it. Answers why it is refused, if it is.
fn make_on(
    row: &Row,
    edited: &mut Option<Netlist>,
    edit: &Edit,
) -> Result<Option<Refusal>, AllocError>
    requires { Fits row.now.library (ahead_in row.now edited.old).insts }
    ensures refusal { IfOk result (λ r. r ≡ edit_refusal (made row.now.library (ahead_in row.now edited.old) edit.now)) }
    ensures left { OnOk result (ahead_in row.now edited.new ≡ edit_left (ahead_in row.now edited.old) (made row.now.library (ahead_in row.now edited.old) edit.now)) }
    ensures unchanged { OnErr result (edited.new ≡ edited.old) }
    ensures fits { Fits row.now.library (ahead_in row.now edited.new).insts }
{
    match edited {
        Some(netlist) => make_over(&row.library, netlist, edit),
        None => {
            let mut copy = copy_of(row)?;
            let refusal = make_over(&row.library, &mut copy, edit)?;
            *edited = Some(copy);
            Ok(refusal)
        }
    }
}

/// Another netlist like the row's.
fn copy_of(row: &Row) -> Result<Netlist, AllocError>
    ensures netlist { IfOk result (λ n. n ≡ row.now.netlist) }
    ensures fits { IfOk result (λ n. Fits row.now.library n.insts) }
{
    row.right();
    row.netlist.copy()
}

/// The netlist ahead is the pinned one again.
fn renew(held: &mut Option<Held>)
    ensures { Renewed held.old held.new }
{
    if let Some(held) = held {
        held.pin.row.right();
        held.edited = None;
    }
}
