//! Seats of sessions, split from the opening seat and joined to it.
ghost use Rattle.std.specs.Prelude.{◌≡◌, ◌≤◌, ℕ, List, [], length, Option, IfOk};
ghost use Rattle.turn_book.specs.Seats.{view, IsSeatOf};
ghost use Rattle.version_store.specs.Turns.{HasCalls};
ghost use Rattle.session_script.specs.declared.calls.Call.{Call};
ghost use Rattle.session_run.specs.InTurn.{calls_of};
ghost use Rattle.session_run.specs.Jobs.{IsJob, IsDone, IsJoined, Each, IsTop, IsUnused};
ghost use Rattle.session_run.specs.Seats.{Origin, IsKnown};

use super::jobs::{Done, Job};
use super::ran::Ran;
use crate::counting::count_shared;
use pinned_reader::Row;
use session_script::Script;
use std::alloc::{AllocError, Global};
use turn_book::{Book, BookSeat};
use version_store::Hall;

/// A seat for each script, from session 1 on, with a turn for each of its shared calls.
pub(crate) fn split_all<'a>(
    alloc: Global,
    book: &Book<Hall<Row>>,
    seat: &mut BookSeat<Hall<Row>>,
    scripts: &'a [Script],
) -> Result<Vec<Job<'a>>, AllocError>
    requires book { IsSeatOf book.now seat.old }
    requires seat { IsUnused (view seat.old) }
    requires turns { (view seat.old).left ≡ calls_of scripts.now }
    requires known { IsKnown (view seat.old) }
    requires room { HasCalls (view seat.old) }
    requires few { length scripts.now ≤ 32 }
    ensures book { IsSeatOf book.now seat.new }
    ensures top { IfOk result (λ v. IsTop (view seat.new) (length scripts.now)) }
    ensures seen { (view seat.new).seen ≡ [] }
    ensures ended { (view seat.new).ended ≡ [] }
    ensures jobs { IfOk result (λ v. Each (IsJob book.now (view seat.old).origin) 1 scripts.now v.items) }
{
    let mut jobs = Vec::with_capacity(alloc, scripts.len())?;
    let mut number = 0;
    for script in scripts {
        number += 1;
        let calls = script.list();
        let turns = count_shared(calls);
        let other = book.split(seat, turns);
        jobs.push_reserved(Job {
            seat: other,
            number,
            script: calls,
        });
    }
    Ok(jobs)
}

/// The opening seat joins the sessions' seats, from session 1 on.
pub(crate) fn join_all(
    alloc: Global,
    book: &Book<Hall<Row>>,
    seat: &mut BookSeat<Hall<Row>>,
    dones: Vec<Done>,
) -> Result<Vec<Ran>, AllocError>
    requires book { IsSeatOf book.now seat.old }
    requires top { IsTop (view seat.old) (view seat.old).given }
    requires seen { (view seat.old).seen ≡ [] }
    requires ended { (view seat.old).ended ≡ [] }
    requires dones { (origin : Option Origin) × (scripts : List (List Call)) × Each (IsDone book.now origin) 1 scripts dones.items }
    ensures book { IsSeatOf book.now seat.new }
    ensures top { IsTop (view seat.new) (view seat.old).given }
    ensures joined { (origin : Option Origin) (scripts : List (List Call)) → Each (IsDone book.now origin) 1 scripts dones.items →
        IfOk result (λ v. Each (IsJoined origin (view seat.new)) 1 scripts v.items) }
{
    let mut rans = Vec::with_capacity(alloc, dones.len())?;
    for done in dones {
        let Done { seat: other, ran } = done;
        book.join(seat, other);
        rans.push_reserved(ran);
    }
    Ok(rans)
}
