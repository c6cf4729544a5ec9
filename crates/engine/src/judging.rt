//! The words of a run: which command they ask for.
ghost use Rattle.std.specs.Prelude.{◌≡◌, false, map, true};
ghost use Rattle.std.specs.String.{string_bytes};
ghost use Rattle.cyc_port.specs.Seen.{Later};
ghost use Rattle.engine.specs.Commands.{course_named, course_of};
ghost use Rattle.engine.specs.Runs.{MayGive};
ghost use Rattle.engine.specs.Words.{is_serve};

use crate::commands::{analyze, apply, bench, expand, serve};
use crate::faults::Fault;
use crate::outcome::Written;
use cyc_port::{Gate, Shelf};
use report_writer::FaultLine;
use std::alloc::Global;
use std::sync::Wait;
use std::thread::Threads;

/// What the words behind a command's name come to.
fn judge_named<R: Threads + Sync, F: Shelf>(
    rt: &R,
    alloc: Global,
    name: &str,
    words: &[String],
    shelf: &mut F,
    gate: &(dyn Gate + Sync),
) -> Result<Written, Fault>
    ensures may { MayGive (course_named name.now (map string_bytes words.now)) (F.seen shelf.old) (F.seen shelf.new) result }
    ensures later { Later (F.seen shelf.old) (F.seen shelf.new) }
{
    if name == "expand" {
        expand::of_words(rt, alloc, shelf, words)
    } else if name == "analyze" {
        analyze::of_words(rt, alloc, shelf, words, gate)
    } else if name == "apply" {
        apply::of_words(alloc, shelf, words)
    } else if name == "bench" {
        bench::of_words(rt, alloc, words, gate)
    } else {
        Err(Fault::Line(FaultLine::Usage))
    }
}

/// What words come to of which the first is not `serve`, over the files of the shelf.
pub(crate) fn judge<R: Threads + Sync, F: Shelf>(
    rt: &R,
    alloc: Global,
    words: &[String],
    shelf: &mut F,
    gate: &(dyn Gate + Sync),
) -> Result<Written, Fault>
    requires { is_serve (map string_bytes words.now) ≡ false }
    ensures may { MayGive (course_of (map string_bytes words.now)) (F.seen shelf.old) (F.seen shelf.new) result }
    ensures later { Later (F.seen shelf.old) (F.seen shelf.new) }
{
    match words {
        [] => Err(Fault::Line(FaultLine::Usage)),
        [name, rest @ ..] => judge_named(rt, alloc, name.as_str(), rest, shelf, gate),
    }
}

/// What words come to of which the first is `serve`, over the files of the shelf.
pub(crate) fn judge_serve<R: Threads + Wait + Sync, F: Shelf>(
    rt: &R,
    alloc: Global,
    words: &[String],
    shelf: &mut F,
    gate: &(dyn Gate + Sync),
) -> Result<Written, Fault>
    requires { is_serve (map string_bytes words.now) ≡ true }
    ensures may { MayGive (course_of (map string_bytes words.now)) (F.seen shelf.old) (F.seen shelf.new) result }
    ensures later { Later (F.seen shelf.old) (F.seen shelf.new) }
{
    match words {
        [] => Err(Fault::Line(FaultLine::Usage)),
        [_, rest @ ..] => serve::of_words(rt, alloc, shelf, rest, gate),
    }
}
