//! The top calls.
ghost use Rattle.std.specs.Prelude.{◌≡◌, false, map, true};
ghost use Rattle.std.specs.String.{string_bytes};
ghost use Rattle.engine.specs.Runs.{IsRun, run_of};
ghost use Rattle.engine.specs.Words.{is_serve};

use crate::judging::{judge, judge_serve};
use crate::outcome::Outcome;
use crate::words::is_serve;
use crate::writing::write_answer;
use cyc_port::{Gate, Shelf, Sink};
use std::alloc::Global;
use std::sync::Wait;
use std::thread::Threads;

/// Does what the words ask for, over the files of the shelf, and writes its text, or the line of a fault, to the sink.
///
/// The words are `expand LIB NET`, `analyze LIB NET [--workers N]`, `apply LIB NET EDITS` or `bench STAGES [--workers N]`. Each file is
/// read and judged before the next is opened. N workers, 1 to 64, find the arrivals; each passes the gate before its part of a round.
/// How a run ends is the record `IsRun`, a field for each promise.
pub fn answer<R: Threads + Sync, F: Shelf, K: Sink>(
    rt: &R,
    alloc: Global,
    words: &[String],
    shelf: &mut F,
    sink: &mut K,
    gate: &(dyn Gate + Sync),
) -> Outcome
    requires { is_serve (map string_bytes words.now) ≡ false }
    ensures run { IsRun (run_of (map string_bytes words.now)
        (F.seen shelf.old) (F.seen shelf.new) (K.seen sink.old) (K.seen sink.new)) result }
    ensures files { (F.seen shelf.new).files ≡ (F.seen shelf.old).files }
{
    let answer = judge(rt, alloc, words, shelf, gate);
    write_answer(alloc, answer, sink)
}

/// Serves the sessions of scripts over a netlist, and writes what their calls are replied, or the line of a fault, to the sink.
///
/// The words are `serve LIB NET [--workers N] SCRIPT...`, with 1 to 32 scripts. The base is read and analysed before the first script is
/// opened, and each script read before the next. Each session runs beside the others, and that of script s passes the gate with s before
/// each shared call. The order in which the shared calls took their places, which the text begins with, is told in the outcome. How a run
/// ends is the record `IsRun`, as of `answer`.
pub fn serve<R: Threads + Wait + Sync, F: Shelf, K: Sink>(
    rt: &R,
    alloc: Global,
    words: &[String],
    shelf: &mut F,
    sink: &mut K,
    gate: &(dyn Gate + Sync),
) -> Outcome
    requires { is_serve (map string_bytes words.now) ≡ true }
    ensures run { IsRun (run_of (map string_bytes words.now)
        (F.seen shelf.old) (F.seen shelf.new) (K.seen sink.old) (K.seen sink.new)) result }
    ensures files { (F.seen shelf.new).files ≡ (F.seen shelf.old).files }
{
    let answer = judge_serve(rt, alloc, words, shelf, gate);
    write_answer(alloc, answer, sink)
}

/// The top call of the program: `serve` where the first word is `serve`, else `answer`.
pub fn cyclone<R: Threads + Wait + Sync, F: Shelf, K: Sink>(
    rt: &R,
    alloc: Global,
    words: &[String],
    shelf: &mut F,
    sink: &mut K,
    gate: &(dyn Gate + Sync),
) -> Outcome
    ensures run { IsRun (run_of (map string_bytes words.now)
        (F.seen shelf.old) (F.seen shelf.new) (K.seen sink.old) (K.seen sink.new)) result }
    ensures files { (F.seen shelf.new).files ≡ (F.seen shelf.old).files }
{
    if is_serve(words) {
        serve(rt, alloc, words, shelf, sink, gate)
    } else {
        answer(rt, alloc, words, shelf, sink, gate)
    }
}
