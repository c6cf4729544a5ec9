//! `apply LIBRARY NETLIST EDITS`: a netlist after a file of edits, as its canonical text.
ghost use Rattle.std.specs.Prelude.{◌≡◌, map};
ghost use Rattle.std.specs.String.{string_bytes};
ghost use Rattle.cyc_port.specs.Seen.{Later, Seen};
ghost use Rattle.netlist_model.specs.Sound.{Fits};
ghost use Rattle.engine.specs.Commands.{apply_course, apply_of, edits_made};
ghost use Rattle.engine.specs.Runs.{MayGive};
ghost use Rattle.engine.specs.Steps.{MayEnd};

use crate::faults::Fault;
use crate::outcome::{Written, plain};
use crate::steps::{open_edits, open_library, open_netlist};
use crate::words::is_file;
use cell_arcs::Library;
use cyc_port::Shelf;
use edit_log::apply;
use netlist_model::{Edit, EditFault, Netlist, StatementFault};
use netlist_reader::write;
use report_writer::FaultLine;
use std::alloc::Global;

/// The canonical text of a netlist after edits.
fn text_after(
    alloc: Global,
    library: &Library,
    netlist: &Netlist,
    edits: &[Edit],
) -> Result<Written, Fault>
    requires { Fits library.now netlist.now.insts }
    ensures { (seen : Seen) → MayEnd seen seen (edits_made library.now netlist.now edits.now) result }
{
    match apply(library, netlist, edits) {
        Ok(edited) => Ok(plain(alloc, write(alloc, library, &edited)?)),
        Err(EditFault::Memory | EditFault::At(_, StatementFault::Memory)) => Err(Fault::Memory),
        Err(EditFault::At(position, fault)) => Err(Fault::Line(FaultLine::EditsStatement(
            position as u64,
            fault,
        ))),
    }
}

/// What the files come to.
fn of_files<F: Shelf>(
    alloc: Global,
    shelf: &mut F,
    library_name: &str,
    netlist_name: &str,
    edits_name: &str,
) -> Result<Written, Fault>
    ensures may { MayEnd (F.seen shelf.old) (F.seen shelf.new) (apply_course library_name.now netlist_name.now edits_name.now) result }
    ensures later { Later (F.seen shelf.old) (F.seen shelf.new) }
{
    let library = open_library(alloc, shelf, library_name)?;
    let netlist = open_netlist(alloc, shelf, &library, netlist_name)?;
    let edits = open_edits(alloc, shelf, edits_name)?;
    text_after(alloc, &library, &netlist, edits.list())
}

/// What the words come to.
pub(crate) fn of_words<F: Shelf>(
    alloc: Global,
    shelf: &mut F,
    words: &[String],
) -> Result<Written, Fault>
    ensures may { MayGive (apply_of (map string_bytes words.now)) (F.seen shelf.old) (F.seen shelf.new) result }
    ensures later { Later (F.seen shelf.old) (F.seen shelf.new) }
{
    match words {
        [library, netlist, edits]
            if is_file(library.as_str()) && is_file(netlist.as_str()) && is_file(edits.as_str()) =>
            {
                of_files(
                    alloc,
                    shelf,
                    library.as_str(),
                    netlist.as_str(),
                    edits.as_str(),
                )
            }
        _ => Err(Fault::Line(FaultLine::Usage)),
    }
}
