//! `expand LIBRARY NETLIST`: the rules of a netlist's system.
ghost use Rattle.std.specs.Prelude.{◌≡◌, map};
ghost use Rattle.std.specs.String.{string_bytes};
ghost use Rattle.cyc_port.specs.Seen.{Later, Seen};
ghost use Rattle.netlist_model.specs.Sound.{Fits};
ghost use Rattle.engine.specs.Commands.{expand_course, expand_of, rules_written};
ghost use Rattle.engine.specs.Runs.{MayGive};
ghost use Rattle.engine.specs.Steps.{MayEnd};

use crate::faults::Fault;
use crate::outcome::{Written, plain};
use crate::steps::{open_library, open_netlist};
use crate::words::is_file;
use cell_arcs::Library;
use cyc_port::Shelf;
use event_expand::expand;
use netlist_model::Netlist;
use report_writer::{FaultLine, rules_text};
use std::alloc::Global;
use std::thread::Threads;

/// The most rules of a system.
const MOST_RULES: u64 = 131_072;

/// The text of a netlist's rules.
fn rules_of<R: Threads + Sync>(
    rt: &R,
    alloc: Global,
    library: &Library,
    netlist: &Netlist,
) -> Result<Written, Fault>
    requires { Fits library.now netlist.now.insts }
    ensures { (seen : Seen) → MayEnd seen seen (rules_written library.now netlist.now) result }
{
    let count = netlist.rule_count(library);
    if count > MOST_RULES {
        return Err(Fault::Line(FaultLine::TooManyRules(count)));
    }
    let system = expand(rt, alloc, library, netlist)?;
    let text = rules_text(alloc, netlist, &system)?;
    Ok(plain(alloc, text))
}

/// What the files come to.
fn of_files<R: Threads + Sync, F: Shelf>(
    rt: &R,
    alloc: Global,
    shelf: &mut F,
    library_name: &str,
    netlist_name: &str,
) -> Result<Written, Fault>
    ensures may { MayEnd (F.seen shelf.old) (F.seen shelf.new) (expand_course library_name.now netlist_name.now) result }
    ensures later { Later (F.seen shelf.old) (F.seen shelf.new) }
{
    let library = open_library(alloc, shelf, library_name)?;
    let netlist = open_netlist(alloc, shelf, &library, netlist_name)?;
    rules_of(rt, alloc, &library, &netlist)
}

/// What the words come to.
pub(crate) fn of_words<R: Threads + Sync, F: Shelf>(
    rt: &R,
    alloc: Global,
    shelf: &mut F,
    words: &[String],
) -> Result<Written, Fault>
    ensures may { MayGive (expand_of (map string_bytes words.now)) (F.seen shelf.old) (F.seen shelf.new) result }
    ensures later { Later (F.seen shelf.old) (F.seen shelf.new) }
{
    match words {
        [library, netlist] if is_file(library.as_str()) && is_file(netlist.as_str()) => {
            of_files(rt, alloc, shelf, library.as_str(), netlist.as_str())
        }
        _ => Err(Fault::Line(FaultLine::Usage)),
    }
}
