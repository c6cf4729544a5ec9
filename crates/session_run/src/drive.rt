//! All sessions on one thread.
ghost use Rattle.std.specs.Prelude.{◌≡◌, ◌<◌, ◌≤◌, ℕ, List, [], map, get_or, IfOk, length};
ghost use Rattle.std.specs.Arc.{arc_value};
ghost use Rattle.session_script.specs.declared.calls.Call.{Call};
ghost use Rattle.pinned_reader.specs.Rows.{RowState};
ghost use Rattle.query_replies.specs.Readings.{Analyses};
ghost use Rattle.query_replies.specs.Served.{AreServed};
ghost use Rattle.session_run.specs.InTurn.{AreSeated};

use crate::counting::total_calls;
use crate::players::Player;
use crate::rounds::round;
use crate::served::{Order, ReplyLists, Served};
use cyc_port::Gate;
use pinned_reader::Row;
use potentials::ArrivalMaker;
use query_replies::laws::rows_are_told;
use session_calls::Session;
use session_machine::{Replies, sessions_are_one_order};
use session_script::Script;
use std::alloc::{AllocError, Global};
use std::sync::Arc;
use std::thread::Threads;
use version_store::Hall;

/// The most calls of a script.
fn longest(scripts: &[Script]) -> usize
    ensures { (k : ℕ) (d : List Call) → k < length scripts.now → length (get_or scripts.now k d) ≤ result }
{
    let mut most = 0;
    for script in scripts {
        let length = script.list().len();
        if length > most {
            most = length;
        }
    }
    most
}

/// A player for each script, none of which has made a call.
fn seat_all(alloc: Global, scripts: &[Script]) -> Result<Vec<Player>, AllocError>
    requires { length scripts.now ≤ 32 }
    ensures { (all : Analyses) (base : RowState) → IfOk result (λ v. AreSeated all base [] scripts.now v.items 0 0) }
{
    let mut players = Vec::with_capacity(alloc, scripts.len())?;
    let mut number = 0;
    for script in scripts {
        let _ = script;
        number += 1;
        players.push_reserved(Player {
            session: Session::new(alloc, number),
            replies: Vec::new(alloc),
        });
    }
    Ok(players)
}

/// The session numbers of the hall's entries.
fn order_of(alloc: Global, hall: &Hall<Row>) -> Result<Order, AllocError>
    ensures { IfOk result (λ o. o ≡ map (λ i. i.entry.session) hall.now.items) }
{
    let entries = hall.entries();
    let mut order = Vec::with_capacity(alloc, entries.len())?;
    for entry in entries {
        order.push_reserved(entry.session);
    }
    Ok(Order::of(order))
}

/// The replies of the players.
fn replies_of(alloc: Global, players: Vec<Player>) -> Result<ReplyLists, AllocError>
    ensures { IfOk result (λ r. r ≡ map (λ p. p.replies.items) players.items) }
{
    let mut all = Vec::with_capacity(alloc, players.len())?;
    for player in players {
        let Player {
            session: _,
            replies,
        } = player;
        all.push_reserved(Replies::of(replies));
    }
    Ok(ReplyLists::of(all))
}

/// Makes one call of each session in turn, by session number, until all scripts are done. The gate is passed with the session's number
/// before each shared call. `AllocError` only for want of memory.
pub fn serve_in_turn<R: Threads + Sync, M: ArrivalMaker>(
    rt: &R,
    alloc: Global,
    base: Arc<Row, Global>,
    scripts: &[Script],
    maker: &M,
    gate: &(dyn Gate + Sync),
) -> Result<Served, AllocError>
    requires few { length scripts.now ≤ 32 }
    ensures { IfOk result (λ s. AreServed (arc_value base).library (arc_value base).netlist scripts.now s.order s.replies) }
{
    sessions_are_one_order();
    rows_are_told(&base);
    let Some(total) = total_calls(scripts) else {
        return Err(AllocError);
    };
    let mut hall = Hall::open(alloc, base, total)?;
    let mut players = seat_all(alloc, scripts)?;
    let most = longest(scripts);
    for at in 0..most {
        round(
            rt,
            alloc,
            scripts,
            players.as_mut_slice(),
            at,
            &mut hall,
            maker,
            gate,
        )?;
    }
    let order = order_of(alloc, &hall)?;
    let replies = replies_of(alloc, players)?;
    Ok(Served { order, replies })
}
