//! `serve LIBRARY NETLIST SCRIPT...`: the replies to the sessions of scripts over a netlist.
ghost use Rattle.std.specs.Prelude.{◌≡◌, ◌≤◌, ◌<◌, IfOk, IfErr, IfSome, length, map};
ghost use Rattle.std.specs.String.{string_bytes};
ghost use Rattle.cyc_port.specs.Seen.{Later, Seen};
ghost use Rattle.netlist_model.specs.Sound.{Fits};
ghost use Rattle.query_replies.specs.Served.{base_of};
ghost use Rattle.engine.specs.Commands.{serve_behind, serve_course, serve_named, serve_of};
ghost use Rattle.engine.specs.Courses.{Serves};
ghost use Rattle.engine.specs.Files.{base_analysed, base_opened};
ghost use Rattle.engine.specs.Runs.{MayGive};
ghost use Rattle.engine.specs.Steps.{MayEnd, Passes, Stops};

use crate::faults::Fault;
use crate::outcome::Written;
use crate::scripts::open_scripts;
use crate::steps::{open_library, open_netlist, refused};
use crate::words::{are_scripts, is_file, read_workers};
use cell_arcs::Library;
use cyc_port::{Gate, Shelf};
use netlist_model::Netlist;
use pinned_reader::Row;
use potentials::ArrivalMaker;
use relax_rounds::Rounds;
use report_writer::{FaultLine, serve_text};
use session_run::serve_sessions;
use session_script::Script;
use std::alloc::Global;
use std::sync::{Arc, Wait};
use std::thread::Threads;

/// The base row of a netlist that has an analysis.
fn base_row<R: Threads + Sync, M: ArrivalMaker>(
    rt: &R,
    alloc: Global,
    library: Library,
    netlist: &Netlist,
    maker: &M,
) -> Result<Row, Fault>
    requires { Fits library netlist.now.insts }
    ensures ok { (seen : Seen) → IfOk result (λ row. Passes seen seen (base_analysed library netlist.now) (base_of row.library row.netlist)) }
    ensures err { (seen : Seen) → IfErr result (Stops seen seen (base_analysed library netlist.now)) }
{
    let library = Arc::new(alloc, library)?;
    match Row::base(rt, alloc, &library, netlist, maker) {
        Ok(row) => Ok(row),
        Err(fault) => Err(refused(alloc, netlist, &fault)),
    }
}

/// The base row of a library and a netlist in files.
fn open_base<R: Threads + Sync, F: Shelf, M: ArrivalMaker>(
    rt: &R,
    alloc: Global,
    shelf: &mut F,
    library_name: &str,
    netlist_name: &str,
    maker: &M,
) -> Result<Row, Fault>
    ensures ok { IfOk result (λ row. Passes (F.seen shelf.old) (F.seen shelf.new) (base_opened library_name.now netlist_name.now) (base_of row.library row.netlist)) }
    ensures err { IfErr result (Stops (F.seen shelf.old) (F.seen shelf.new) (base_opened library_name.now netlist_name.now)) }
    ensures later { Later (F.seen shelf.old) (F.seen shelf.new) }
{
    let library = open_library(alloc, shelf, library_name)?;
    let netlist = open_netlist(alloc, shelf, &library, netlist_name)?;
    base_row(rt, alloc, library, &netlist, maker)
}

/// The replies to the sessions of scripts.
fn serve_scripts<R: Threads + Wait + Sync, M: ArrivalMaker + Sync>(
    rt: &R,
    alloc: Global,
    base: Row,
    scripts: &[Script],
    maker: &M,
    gate: &(dyn Gate + Sync),
) -> Result<Written, Fault>
    requires few { length scripts.now ≤ 32 }
    ensures { (seen : Seen) → MayEnd seen seen (Serves base.library base.netlist scripts.now) result }
{
    let base = Arc::new(alloc, base)?;
    let served = serve_sessions(rt, alloc, base, scripts, maker, &gate)?;
    let text = serve_text(alloc, served.order.list(), served.replies.list())?;
    Ok(Written {
        text,
        order: served.order,
    })
}

/// What the files come to.
fn of_files<R: Threads + Wait + Sync, F: Shelf, M: ArrivalMaker + Sync>(
    rt: &R,
    alloc: Global,
    shelf: &mut F,
    library: &str,
    netlist: &str,
    script_names: &[String],
    maker: &M,
    gate: &(dyn Gate + Sync),
) -> Result<Written, Fault>
    requires few { length script_names.now ≤ 32 }
    ensures may { MayEnd (F.seen shelf.old) (F.seen shelf.new) (serve_course library.now netlist.now (map string_bytes script_names.now)) result }
    ensures later { Later (F.seen shelf.old) (F.seen shelf.new) }
{
    let base = open_base(rt, alloc, shelf, library, netlist, maker)?;
    let scripts = open_scripts(alloc, shelf, script_names)?;
    serve_scripts(rt, alloc, base, &scripts, maker, gate)
}

/// What names of files and a number of workers come to.
fn of_named<R: Threads + Wait + Sync, F: Shelf>(
    rt: &R,
    alloc: Global,
    shelf: &mut F,
    library: &str,
    netlist: &str,
    workers: Option<u32>,
    scripts: &[String],
    gate: &(dyn Gate + Sync),
) -> Result<Written, Fault>
    requires some { IfSome workers (λ n. 0 < n) }
    requires few { IfSome workers (λ n. n ≤ 64) }
    ensures may { MayGive (serve_named library.now netlist.now workers (map string_bytes scripts.now)) (F.seen shelf.old) (F.seen shelf.new) result }
    ensures later { Later (F.seen shelf.old) (F.seen shelf.new) }
{
    match workers {
        Some(workers) if is_file(library) && is_file(netlist) && are_scripts(scripts) => {
            let maker = Rounds {
                workers,
                gate: &gate,
            };
            of_files(rt, alloc, shelf, library, netlist, scripts, &maker, gate)
        }
        _ => Err(Fault::Line(FaultLine::Usage)),
    }
}

/// What the names of a library and a netlist, and the words behind them, come to.
fn of_behind<R: Threads + Wait + Sync, F: Shelf>(
    rt: &R,
    alloc: Global,
    shelf: &mut F,
    library: &str,
    netlist: &str,
    words: &[String],
    gate: &(dyn Gate + Sync),
) -> Result<Written, Fault>
    ensures may { MayGive (serve_behind library.now netlist.now (map string_bytes words.now)) (F.seen shelf.old) (F.seen shelf.new) result }
    ensures later { Later (F.seen shelf.old) (F.seen shelf.new) }
{
    if let [flag, count, scripts @ ..] = words {
        if flag.as_str() == "--workers" {
            let workers = read_workers(flag.as_str(), count.as_str());
            return of_named(rt, alloc, shelf, library, netlist, workers, scripts, gate);
        }
    }
    of_named(rt, alloc, shelf, library, netlist, Some(1), words, gate)
}

/// What the words come to.
pub(crate) fn of_words<R: Threads + Wait + Sync, F: Shelf>(
    rt: &R,
    alloc: Global,
    shelf: &mut F,
    words: &[String],
    gate: &(dyn Gate + Sync),
) -> Result<Written, Fault>
    ensures may { MayGive (serve_of (map string_bytes words.now)) (F.seen shelf.old) (F.seen shelf.new) result }
    ensures later { Later (F.seen shelf.old) (F.seen shelf.new) }
{
    let [library, netlist, rest @ ..] = words else {
        return Err(Fault::Line(FaultLine::Usage));
    };
    of_behind(
        rt,
        alloc,
        shelf,
        library.as_str(),
        netlist.as_str(),
        rest,
        gate,
    )
}
