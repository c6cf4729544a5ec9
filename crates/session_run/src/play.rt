//! A call of a session, over a hall that one thread has.
ghost use Rattle.std.specs.Prelude.{◌≡◌, ◌<◌, ℕ, true, List, ◌∷◌, OnOk, IfOk};
ghost use Rattle.session_script.specs.Calls.{is_shared};
ghost use Rattle.session_script.specs.declared.calls.Call.{Call};
ghost use Rattle.query_replies.specs.Readings.{Analyses};
ghost use Rattle.session_calls.specs.States.{rows, Knows};
ghost use Rattle.session_run.specs.InTurn.{AreKnown};
ghost use Rattle.session_run.specs.Playing.{IsPlaying, Plays, Did, DidShared};

use crate::players::Player;
use cyc_port::Gate;
use pinned_reader::Row;
use potentials::ArrivalMaker;
use session_calls::Session;
use session_machine::Reply;
use session_script::Call;
use std::alloc::{AllocError, Global};
use std::thread::Threads;
use version_store::Hall;

/// A shared call: first what needs no hall, then the gate with the session's number, then its turn.
fn shared_call<R: Threads + Sync, M: ArrivalMaker>(
    rt: &R,
    alloc: Global,
    session: &mut Session,
    call: &Call,
    hall: &mut Hall<Row>,
    maker: &M,
    gate: &(dyn Gate + Sync),
) -> Result<Reply, AllocError>
    requires shared { is_shared call.now ≡ true }
    requires room { 0 < hall.old.room }
    requires known { Knows (rows hall.old) session.old }
    requires some { AreKnown hall.old.base }
    ensures hall { OnOk result (Plays hall.old hall.new session.old.number) }
    ensures did { (all : Analyses) → hall.old.base.library ≡ all.library → IfOk result (DidShared all hall.old hall.new session.old session.new call.now) }
{
    hall.is_chain();
    let ready = session.prepare(rt, alloc, call, maker)?;
    gate.pass(u64::from(session.number()));
    let taken = session.act(ready, hall);
    session.finish(taken)
}

/// A call, and its reply.
fn reply_to<R: Threads + Sync, M: ArrivalMaker>(
    rt: &R,
    alloc: Global,
    session: &mut Session,
    call: &Call,
    hall: &mut Hall<Row>,
    maker: &M,
    gate: &(dyn Gate + Sync),
) -> Result<Reply, AllocError>
    requires room { is_shared call.now ≡ true → 0 < hall.old.room }
    requires known { Knows (rows hall.old) session.old }
    requires some { AreKnown hall.old.base }
    ensures hall { OnOk result (Plays hall.old hall.new session.old.number) }
    ensures did { (all : Analyses) → hall.old.base.library ≡ all.library → IfOk result (Did (is_shared call.now) all hall.old hall.new session.old session.new call.now) }
{
    if call.is_shared() {
        return shared_call(rt, alloc, session, call, hall, maker, gate);
    }
    hall.is_chain();
    session.step_local(alloc, call)
}

/// One call of a player, and its reply.
pub(crate) fn play<R: Threads + Sync, M: ArrivalMaker>(
    rt: &R,
    alloc: Global,
    player: &mut Player,
    call: &Call,
    hall: &mut Hall<Row>,
    maker: &M,
    gate: &(dyn Gate + Sync),
) -> Result<(), AllocError>
    requires room { is_shared call.now ≡ true → 0 < hall.old.room }
    requires known { Knows (rows hall.old) player.old.session }
    requires some { AreKnown hall.old.base }
    ensures hall { OnOk result (Plays hall.old hall.new player.old.session.number) }
    ensures playing { (all : Analyses) → hall.old.base.library ≡ all.library → OnOk result ((n : ℕ) (script rest : List Call) →
        IsPlaying all hall.old.base hall.old.items n script player.old.session player.old.replies.items (call.now ∷ rest) →
        IsPlaying all hall.old.base hall.new.items n script player.new.session player.new.replies.items rest) }
{
    player.replies.reserve(1)?;
    let reply = reply_to(rt, alloc, &mut player.session, call, hall, maker, gate)?;
    player.replies.push_reserved(reply);
    Ok(())
}
