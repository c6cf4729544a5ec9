//! A session over a book, on a thread of its own.
ghost use Rattle.std.specs.Prelude.{◌≡◌, ◌≤◌, ℕ, true, List, [], ◌∷◌, IfOk, OnOk};
ghost use Rattle.turn_book.specs.Seats.{view, IsSeatOf};
ghost use Rattle.session_script.specs.Calls.{is_shared};
ghost use Rattle.session_script.specs.declared.calls.Call.{Call};
ghost use Rattle.query_replies.specs.Readings.{Analyses};
ghost use Rattle.session_calls.specs.States.{Knows, IsOver};
ghost use Rattle.session_run.specs.Going.{rows_at};
ghost use Rattle.session_run.specs.Jobs.{IsFresh};
ghost use Rattle.session_run.specs.Seats.{Origin, IsAtRest, IsKnown, StartsFrom, TookTurn};
ghost use Rattle.session_run.specs.Serving.{IsServing, HasServed, Follow};

use super::ran::Ran;
use cyc_port::Gate;
use pinned_reader::Row;
use potentials::ArrivalMaker;
use session_calls::Session;
use session_machine::Reply;
use session_script::Call;
use std::alloc::{AllocError, Global};
use std::sync::Wait;
use std::thread::Threads;
use turn_book::{Book, BookSeat};
use version_store::Hall;

/// A shared call: first what needs no hall, then the gate with the session's number, and then a turn of the seat. The place of its entry, and
/// its reply.
fn shared_call<R: Threads + Wait + Sync, M: ArrivalMaker, G: Gate>(
    rt: &R,
    alloc: Global,
    book: &Book<Hall<Row>>,
    seat: &mut BookSeat<Hall<Row>>,
    session: &mut Session,
    call: &Call,
    maker: &M,
    gate: &G,
) -> Result<(u64, Reply), AllocError>
    requires shared { is_shared call.now ≡ true }
    requires book { IsSeatOf book.now seat.old }
    requires seat { IsAtRest (view seat.old) session.old.number }
    requires left { 1 ≤ (view seat.old).left }
    requires known { (all : Analyses) × (o : Origin) × StartsFrom all (view seat.old) o × IsOver all session.old }
    requires pin { (o : Origin) → (view seat.old).origin ≡ Some o → Knows (rows_at o.base (view seat.old).seen) session.old }
    ensures book { IsSeatOf book.now seat.new }
    ensures seat { IsAtRest (view seat.new) session.old.number }
    ensures origin { (view seat.new).origin ≡ (view seat.old).origin }
    ensures total { (view seat.new).total ≡ (view seat.old).total }
    ensures turn { (all : Analyses) (o : Origin) → StartsFrom all (view seat.old) o → IsOver all session.old →
        IfOk result (λ r. TookTurn all o (view seat.old) (view seat.new) session.old session.new call.now r.0 r.1) }
{
    let ready = session.prepare(rt, alloc, call, maker)?;
    gate.pass(u64::from(session.number()));
    let mut turn = book.take_turn(rt, seat);
    let taken = session.act(ready, turn.value());
    let place = book.give_back(seat, turn);
    let reply = session.finish(taken)?;
    Ok((place, reply))
}

/// A call of a session.
fn next_call<R: Threads + Wait + Sync, M: ArrivalMaker, G: Gate>(
    rt: &R,
    alloc: Global,
    book: &Book<Hall<Row>>,
    seat: &mut BookSeat<Hall<Row>>,
    session: &mut Session,
    call: &Call,
    ran: &mut Ran,
    maker: &M,
    gate: &G,
) -> Result<(), AllocError>
    requires book { IsSeatOf book.now seat.old }
    requires seat { IsAtRest (view seat.old) session.old.number }
    requires left { is_shared call.now ≡ true → 1 ≤ (view seat.old).left }
    requires known { (all : Analyses) × (o : Origin) × StartsFrom all (view seat.old) o × IsOver all session.old }
    requires pin { (o : Origin) → (view seat.old).origin ≡ Some o → Knows (rows_at o.base (view seat.old).seen) session.old }
    ensures book { IsSeatOf book.now seat.new }
    ensures seat { IsAtRest (view seat.new) session.old.number }
    ensures origin { (view seat.new).origin ≡ (view seat.old).origin }
    ensures total { (view seat.new).total ≡ (view seat.old).total }
    ensures serving { (all : Analyses) (o : Origin) (n : ℕ) (script rest : List Call) → StartsFrom all (view seat.old) o →
        IsServing all o.base n script (view seat.old) session.old ran.old.replies.items ran.old.places.items (call.now ∷ rest) →
        OnOk result (IsServing all o.base n script (view seat.new) session.new ran.new.replies.items ran.new.places.items rest) }
    ensures follow { (o : Origin) → (view seat.old).origin ≡ Some o → Follow o.base (view seat.old) → OnOk result (Follow o.base (view seat.new)) }
{
    ran.replies.reserve(1)?;
    if call.is_shared() {
        ran.places.reserve(1)?;
        let (place, reply) = shared_call(rt, alloc, book, seat, session, call, maker, gate)?;
        ran.places.push_reserved(place);
        ran.replies.push_reserved(reply);
    } else {
        let reply = session.step_local(alloc, call)?;
        ran.replies.push_reserved(reply);
    }
    Ok(())
}

/// Makes the calls of a script, each shared one in a turn of the seat. The gate is passed with the session's number before each shared call,
/// behind what it needs no turn for. `AllocError` only for want of memory; no clause says which entries the seat has made then.
pub fn serve_session<R: Threads + Wait + Sync, M: ArrivalMaker, G: Gate>(
    rt: &R,
    alloc: Global,
    book: &Book<Hall<Row>>,
    seat: &mut BookSeat<Hall<Row>>,
    number: u16,
    script: &[Call],
    maker: &M,
    gate: &G,
) -> Result<Ran, AllocError>
    requires book { IsSeatOf book.now seat.old }
    requires fresh { IsFresh (view seat.old) number script.now }
    ensures book { IsSeatOf book.now seat.new }
    ensures seat { IsAtRest (view seat.new) number }
    ensures origin { (view seat.new).origin ≡ (view seat.old).origin }
    ensures total { (view seat.new).total ≡ (view seat.old).total }
    ensures served { (all : Analyses) (o : Origin) → StartsFrom all (view seat.old) o →
        IfOk result (λ r. HasServed all o.base number script.now (view seat.new) r.replies.items r.places.items) }
    ensures follow { (o : Origin) → (view seat.old).origin ≡ Some o → Follow o.base (view seat.old) → OnOk result (Follow o.base (view seat.new)) }
{
    let mut session = Session::new(alloc, number);
    let mut ran = Ran {
        replies: Vec::new(alloc),
        places: Vec::new(alloc),
    };
    for call in script {
        next_call(
            rt,
            alloc,
            book,
            seat,
            &mut session,
            call,
            &mut ran,
            maker,
            gate,
        )?;
    }
    Ok(ran)
}
