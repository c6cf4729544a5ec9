//! `analyze LIBRARY NETLIST`: the report of a netlist's analysis.
ghost use Rattle.std.specs.Prelude.{◌≡◌, ◌≤◌, ◌<◌, IfSome, map};
ghost use Rattle.std.specs.String.{string_bytes};
ghost use Rattle.cyc_port.specs.Seen.{Later, Seen};
ghost use Rattle.netlist_model.specs.Sound.{Fits};
ghost use Rattle.engine.specs.Commands.{analyze_circuit, analyze_course, analyze_named, analyze_of};
ghost use Rattle.engine.specs.Runs.{MayGive};
ghost use Rattle.engine.specs.Steps.{MayEnd};

use crate::faults::Fault;
use crate::outcome::{Written, plain};
use crate::steps::{analyse, open_library, open_netlist};
use crate::words::{is_file, workers_behind};
use cell_arcs::Library;
use cyc_port::{Gate, Shelf};
use netlist_model::Netlist;
use potentials::ArrivalMaker;
use relax_rounds::Rounds;
use report_writer::{FaultLine, report_text};
use std::alloc::Global;
use std::thread::Threads;

/// The report of a netlist's analysis.
fn report_of<R: Threads + Sync, M: ArrivalMaker>(
    rt: &R,
    alloc: Global,
    library: &Library,
    netlist: &Netlist,
    maker: &M,
) -> Result<Written, Fault>
    requires { Fits library.now netlist.now.insts }
    ensures { (seen : Seen) → MayEnd seen seen (analyze_circuit library.now netlist.now) result }
{
    let found = analyse(rt, alloc, library, netlist, maker)?;
    let text = report_text(alloc, netlist, &found.system, &found.analysis)?;
    Ok(plain(alloc, text))
}

/// What the files come to.
fn of_files<R: Threads + Sync, F: Shelf, M: ArrivalMaker>(
    rt: &R,
    alloc: Global,
    shelf: &mut F,
    library_name: &str,
    netlist_name: &str,
    maker: &M,
) -> Result<Written, Fault>
    ensures may { MayEnd (F.seen shelf.old) (F.seen shelf.new) (analyze_course library_name.now netlist_name.now) result }
    ensures later { Later (F.seen shelf.old) (F.seen shelf.new) }
{
    let library = open_library(alloc, shelf, library_name)?;
    let netlist = open_netlist(alloc, shelf, &library, netlist_name)?;
    report_of(rt, alloc, &library, &netlist, maker)
}

/// What names of files and a number of workers come to.
fn of_named<R: Threads + Sync, F: Shelf>(
    rt: &R,
    alloc: Global,
    shelf: &mut F,
    library: &str,
    netlist: &str,
    workers: Option<u32>,
    gate: &(dyn Gate + Sync),
) -> Result<Written, Fault>
    requires some { IfSome workers (λ n. 0 < n) }
    requires few { IfSome workers (λ n. n ≤ 64) }
    ensures may { MayGive (analyze_named library.now netlist.now workers) (F.seen shelf.old) (F.seen shelf.new) result }
    ensures later { Later (F.seen shelf.old) (F.seen shelf.new) }
{
    match workers {
        Some(workers) if is_file(library) && is_file(netlist) => {
            let maker = Rounds {
                workers,
                gate: &gate,
            };
            of_files(rt, alloc, shelf, library, netlist, &maker)
        }
        _ => Err(Fault::Line(FaultLine::Usage)),
    }
}

/// What the words come to.
pub(crate) fn of_words<R: Threads + Sync, F: Shelf>(
    rt: &R,
    alloc: Global,
    shelf: &mut F,
    words: &[String],
    gate: &(dyn Gate + Sync),
) -> Result<Written, Fault>
    ensures may { MayGive (analyze_of (map string_bytes words.now)) (F.seen shelf.old) (F.seen shelf.new) result }
    ensures later { Later (F.seen shelf.old) (F.seen shelf.new) }
{
    let [library, netlist, rest @ ..] = words else {
        return Err(Fault::Line(FaultLine::Usage));
    };
    of_named(
        rt,
        alloc,
        shelf,
        library.as_str(),
        netlist.as_str(),
        workers_behind(rest),
        gate,
    )
}
