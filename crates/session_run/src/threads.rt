//! Sessions beside each other.
ghost use Rattle.std.specs.Prelude.{◌≡◌, ◌<◌, ◌≤◌, ℕ, length, Some, IfOk};
ghost use Rattle.std.specs.Arc.{arc_value};
ghost use Rattle.std.specs.List.{All, AllZip};
ghost use Rattle.turn_book.specs.Views.{HasEndedAll};
ghost use Rattle.turn_book.specs.Seats.{view, IsSeatOf};
ghost use Rattle.version_store.specs.Turns.{HasCalls};
ghost use Rattle.query_replies.specs.Readings.{Analyses};
ghost use Rattle.query_replies.specs.Served.{AreServed};
ghost use Rattle.session_run.specs.InTurn.{calls_of};
ghost use Rattle.session_run.specs.Jobs.{AreAlong, IsReadyJob, IsEnded, IsTop, IsUnused};
ghost use Rattle.session_run.specs.Seats.{Origin, IsKnown, StartsFrom};

use self::filled::{order_of, replies_of};
use self::jobs::{Done, Job};
use self::serve::serve_session;
use self::splits::{join_all, split_all};
use crate::counting::total_calls;
use crate::served::Served;
use cyc_port::Gate;
use pinned_reader::Row;
use potentials::ArrivalMaker;
use query_replies::laws::rows_are_told;
use session_machine::sessions_are_one_order;
use session_script::Script;
use std::alloc::{AllocError, Global};
use std::sync::{Arc, Wait};
use std::thread::{Threads, join};
use turn_book::{Book, BookSeat};
use version_store::Hall;

mod filled;
mod jobs;
pub(crate) mod ran;
pub(crate) mod serve;
mod splits;

/// A session.
fn serve_job<R: Threads + Wait + Sync, M: ArrivalMaker, G: Gate>(
    rt: &R,
    alloc: Global,
    book: &Book<Hall<Row>>,
    job: Job<'_>,
    maker: &M,
    gate: &G,
) -> Result<Done, AllocError>
    requires { IsReadyJob book.now job }
    ensures { IfOk result (λ d. IsEnded book.now job.entry d) }
{
    let Job {
        mut seat,
        number,
        script,
    } = job;
    let ran = serve_session(rt, alloc, book, &mut seat, number, script, maker, gate)?;
    Ok(Done { seat, ran })
}

/// At most one session.
fn serve_few<R: Threads + Wait + Sync, M: ArrivalMaker, G: Gate>(
    rt: &R,
    alloc: Global,
    book: &Book<Hall<Row>>,
    mut jobs: Vec<Job<'_>>,
    maker: &M,
    gate: &G,
) -> Result<Vec<Done>, AllocError>
    requires few { length jobs.items < 2 }
    requires ready { All (IsReadyJob book.now) jobs.items }
    ensures { IfOk result (λ v. AllZip (IsEnded book.now) jobs.entry.items v.items) }
{
    let mut done = Vec::with_capacity(alloc, 1)?;
    if let Some(job) = jobs.pop() {
        done.push_reserved(serve_job(rt, alloc, book, job, maker, gate)?);
    }
    Ok(done)
}

/// The sessions of a list, each half beside the other.
#[cycle(serve)]
fn serve_half<R: Threads + Wait + Sync, M: ArrivalMaker + Sync, G: Gate + Sync>(
    rt: &R,
    alloc: Global,
    book: &Book<Hall<Row>>,
    mut low: Vec<Job<'_>>,
    maker: &M,
    gate: &G,
) -> Result<Vec<Done>, AllocError>
    requires { All (IsReadyJob book.now) low.items }
    ensures { IfOk result (λ v. AllZip (IsEnded book.now) low.entry.items v.items) }
{
    if low.len() < 2 {
        return serve_few(rt, alloc, book, low, maker, gate);
    }
    let high = low.split_off(low.len() / 2)?;
    let (front, back) = join(
        rt,
        move || -> Result<Vec<Done>, AllocError>
            requires { All (IsReadyJob book.now) low.items }
            ensures { IfOk result (λ v. AllZip (IsEnded book.entry.now) low.entry.items v.items) }
        { serve_half(rt, alloc, book, low, maker, gate) },
        move || -> Result<Vec<Done>, AllocError>
            requires { All (IsReadyJob book.now) high.items }
            ensures { IfOk result (λ v. AllZip (IsEnded book.entry.now) high.entry.items v.items) }
        { serve_half(rt, alloc, book, high, maker, gate) },
    );
    let mut all = front?;
    let mut rest = back?;
    all.append(&mut rest)?;
    Ok(all)
}

/// Runs each session beside the others, over a book and its opening seat. The gate is passed with the session's number before each shared
/// call. `AllocError` only for want of memory, once all sessions are back.
pub fn serve_threads<R: Threads + Wait + Sync, M: ArrivalMaker + Sync, G: Gate + Sync>(
    rt: &R,
    alloc: Global,
    book: &Book<Hall<Row>>,
    seat: &mut BookSeat<Hall<Row>>,
    scripts: &[Script],
    maker: &M,
    gate: &G,
) -> Result<Served, AllocError>
    requires book { IsSeatOf book.now seat.old }
    requires seat { IsUnused (view seat.old) }
    requires turns { (view seat.old).left ≡ calls_of scripts.now }
    requires known { IsKnown (view seat.old) }
    requires room { HasCalls (view seat.old) }
    requires few { length scripts.now ≤ 32 }
    ensures book { IsSeatOf book.now seat.new }
    ensures top { IfOk result (λ s. IsTop (view seat.new) (length scripts.now)) }
    ensures ended { IfOk result (λ s. HasEndedAll (view seat.new)) }
    ensures served { (o : Origin) → (view seat.old).origin ≡ Some o →
        IfOk result (λ s. AreServed o.base.library o.base.netlist scripts.now s.order s.replies) }
    ensures along { (all : Analyses) (o : Origin) → StartsFrom all (view seat.old) o →
        IfOk result (λ s. AreAlong all o scripts.now (view seat.new) s.order s.replies) }
{
    sessions_are_one_order();
    let jobs = split_all(alloc, book, seat, scripts)?;
    let dones = serve_half(rt, alloc, book, jobs, maker, gate)?;
    let rans = join_all(alloc, book, seat, dones)?;
    let order = order_of(alloc, rans.as_slice())?;
    let replies = replies_of(alloc, rans)?;
    Ok(Served { order, replies })
}

/// Runs each session beside the others, over a book of its own with a turn for each of their shared calls. The gate is passed with the
/// session's number before each shared call. `AllocError` only for want of memory.
pub fn serve_sessions<R: Threads + Wait + Sync, M: ArrivalMaker + Sync, G: Gate + Sync>(
    rt: &R,
    alloc: Global,
    base: Arc<Row, Global>,
    scripts: &[Script],
    maker: &M,
    gate: &G,
) -> Result<Served, AllocError>
    requires few { length scripts.now ≤ 32 }
    ensures { IfOk result (λ s. AreServed (arc_value base).library (arc_value base).netlist scripts.now s.order s.replies) }
{
    rows_are_told(&base);
    let Some(total) = total_calls(scripts) else {
        return Err(AllocError);
    };
    let hall = Hall::open(alloc, base, total)?;
    let (book, mut seat) = Book::open(alloc, hall, total)?;
    let served = serve_threads(rt, alloc, &book, &mut seat, scripts, maker, gate)?;
    book.close(seat);
    Ok(served)
}
