//! `bench STAGES`: the result of the analysis of a Muller ring, which is made from its number of stages.
ghost use Rattle.std.specs.Prelude.{◌≡◌, ◌≤◌, ◌<◌, IfSome, map};
ghost use Rattle.std.specs.String.{string_bytes};
ghost use Rattle.cyc_port.specs.Seen.{Seen};
ghost use Rattle.netlist_model.specs.Sound.{Fits};
ghost use Rattle.engine.specs.Commands.{bench_circuit, bench_course, bench_named, bench_of};
ghost use Rattle.engine.specs.Runs.{MayGive};
ghost use Rattle.engine.specs.Steps.{MayEnd};

use crate::faults::Fault;
use crate::outcome::{Written, plain};
use crate::steps::{analyse, read_library, read_netlist};
use crate::words::{read_stages, workers_behind};
use cell_arcs::Library;
use cyc_port::Gate;
use netlist_model::Netlist;
use potentials::ArrivalMaker;
use relax_rounds::Rounds;
use report_writer::{FaultLine, bench_text};
use ring_maker::{RingCells, muller_ring};
use std::alloc::Global;
use std::thread::Threads;

/// The result of a ring's analysis.
fn result_of<R: Threads + Sync, M: ArrivalMaker>(
    rt: &R,
    alloc: Global,
    stages: u32,
    library: &Library,
    netlist: &Netlist,
    maker: &M,
) -> Result<Written, Fault>
    requires { Fits library.now netlist.now.insts }
    ensures { (seen : Seen) → MayEnd seen seen (bench_circuit stages library.now netlist.now) result }
{
    let found = analyse(rt, alloc, library, netlist, maker)?;
    let text = bench_text(alloc, stages, netlist, &found.system, &found.analysis)?;
    Ok(plain(alloc, text))
}

/// What a ring of so many stages comes to.
fn of_stages<R: Threads + Sync, M: ArrivalMaker>(
    rt: &R,
    alloc: Global,
    stages: u32,
    maker: &M,
) -> Result<Written, Fault>
    requires least { 3 ≤ stages }
    requires most { stages ≤ 4096 }
    ensures { (seen : Seen) → MayEnd seen seen (bench_course stages) result }
{
    let library = read_library(alloc, RingCells.ring_cells())?;
    let ring = muller_ring(alloc, stages)?;
    let netlist = read_netlist(alloc, &library, ring.bytes())?;
    result_of(rt, alloc, stages, &library, &netlist, maker)
}

/// What a word of stages and a number of workers come to.
fn of_named<R: Threads + Sync>(
    rt: &R,
    alloc: Global,
    stages: &str,
    workers: Option<u32>,
    gate: &(dyn Gate + Sync),
) -> Result<Written, Fault>
    requires some { IfSome workers (λ n. 0 < n) }
    requires few { IfSome workers (λ n. n ≤ 64) }
    ensures { (seen : Seen) → MayGive (bench_named stages.now workers) seen seen result }
{
    let Some(workers) = workers else {
        return Err(Fault::Line(FaultLine::Usage));
    };
    match read_stages(stages) {
        Some(stages) => {
            let maker = Rounds {
                workers,
                gate: &gate,
            };
            of_stages(rt, alloc, stages, &maker)
        }
        None => Err(Fault::Line(FaultLine::Usage)),
    }
}

/// What the words come to.
pub(crate) fn of_words<R: Threads + Sync>(
    rt: &R,
    alloc: Global,
    words: &[String],
    gate: &(dyn Gate + Sync),
) -> Result<Written, Fault>
    ensures { (seen : Seen) → MayGive (bench_of (map string_bytes words.now)) seen seen result }
{
    let [stages, rest @ ..] = words else {
        return Err(Fault::Line(FaultLine::Usage));
    };
    of_named(rt, alloc, stages.as_str(), workers_behind(rest), gate)
}
