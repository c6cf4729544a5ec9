//! Sessions that play in turn, round by round.
ghost use Rattle.std.specs.Prelude.{◌≡◌, ◌+◌, ◌≤◌, length, OnOk};
ghost use Rattle.session_run.specs.InTurn.{AreKnown, AreReady, calls_of};

use crate::play::play;
use crate::players::Player;
use cyc_port::Gate;
use pinned_reader::Row;
use potentials::ArrivalMaker;
use session_script::Script;
use std::alloc::{AllocError, Global};
use std::thread::Threads;
use version_store::Hall;

/// One call of each session that has one left, by session number.
pub(crate) fn round<R: Threads + Sync, M: ArrivalMaker>(
    rt: &R,
    alloc: Global,
    scripts: &[Script],
    players: &mut [Player],
    at: usize,
    hall: &mut Hall<Row>,
    maker: &M,
    gate: &(dyn Gate + Sync),
) -> Result<(), AllocError>
    requires few { length scripts.now ≤ 32 }
    requires some { AreKnown hall.old.base }
    requires seated { AreReady hall.old scripts.now players.old at }
    requires room { calls_of scripts.now ≡ length hall.old.items + hall.old.room }
    ensures seated { OnOk result (AreReady hall.new scripts.now players.new (at + 1)) }
    ensures base { OnOk result (hall.new.base ≡ hall.old.base) }
    ensures room { OnOk result (calls_of scripts.now ≡ length hall.new.items + hall.new.room) }
{
    for i in 0..scripts.len() {
        let script = scripts[i].list();
        if at < script.len() {
            let call = &script[at];
            let player = &mut players[i];
            play(rt, alloc, player, call, hall, maker, gate)?;
        }
    }
    Ok(())
}
