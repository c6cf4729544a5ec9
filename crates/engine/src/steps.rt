//! The steps that commands are made of: files that are opened and read, and a netlist's analysis.
ghost use Rattle.std.specs.Prelude.{◌≡◌, ◌≢◌, ◌*◌, IfOk, IfErr, length};
ghost use Rattle.cyc_port.specs.Seen.{Seen, Later};
ghost use Rattle.netlist_model.specs.Sound.{Fits};
ghost use Rattle.event_expand.specs.Systems.{system_of};
ghost use Rattle.netlist_analysis.specs.Findings.{IsNetlistAnalysis, NamesBelow};
ghost use Rattle.report_writer.specs.NetlistLines.{netlist_line};
ghost use Rattle.engine.specs.declared.faults.Fault.TheVariants.{Line};
ghost use Rattle.engine.specs.Courses.{Opens};
ghost use Rattle.engine.specs.Files.{analysed, edits_opened, edits_read, library_opened, library_read, netlist_opened, netlist_read};
ghost use Rattle.engine.specs.Steps.{Passes, Stops};

use crate::faults::Fault;
use cell_arcs::{Library, LibraryFault};
use cyc_port::{Shelf, ShelfFault};
use cyc_text::Text;
use netlist_analysis::{Analysed, NetlistFault, analyse_netlist};
use netlist_model::{Edits, Netlist, StatementFault};
use netlist_reader::{EditsFault, NetFault, read, read_edits};
use potentials::ArrivalMaker;
use report_writer::{FaultLine, netlist_line};
use std::alloc::Global;
use std::thread::Threads;

/// The text of a file.
pub(crate) fn open<F: Shelf>(alloc: Global, shelf: &mut F, name: &str) -> Result<Text, Fault>
    ensures ok { IfOk result (Passes (F.seen shelf.old) (F.seen shelf.new) (Opens name.now)) }
    ensures err { IfErr result (Stops (F.seen shelf.old) (F.seen shelf.new) (Opens name.now)) }
    ensures later { Later (F.seen shelf.old) (F.seen shelf.new) }
{
    match shelf.read_all(alloc, name) {
        Ok(text) => Ok(text),
        Err(ShelfFault::Failed) => Err(Fault::Line(FaultLine::ReadFault(Text::of(
            alloc,
            name.as_bytes(),
        )?))),
        Err(ShelfFault::TooLong) => Err(Fault::Line(FaultLine::TooLong(Text::of(
            alloc,
            name.as_bytes(),
        )?))),
        Err(ShelfFault::Memory) => Err(Fault::Memory),
    }
}

/// The library that bytes write.
pub(crate) fn read_library(alloc: Global, bytes: &[u8]) -> Result<Library, Fault>
    ensures ok { (seen : Seen) → IfOk result (Passes seen seen (library_read bytes.now)) }
    ensures err { (seen : Seen) → IfErr result (Stops seen seen (library_read bytes.now)) }
{
    match Library::read(alloc, bytes) {
        Ok(library) => Ok(library),
        Err(LibraryFault::Memory) => Err(Fault::Memory),
        Err(fault) => Err(Fault::Line(FaultLine::Library(fault))),
    }
}

/// The netlist that bytes write over a library.
pub(crate) fn read_netlist(alloc: Global, library: &Library, bytes: &[u8]) -> Result<Netlist, Fault>
    ensures ok { (seen : Seen) → IfOk result (Passes seen seen (netlist_read library.now bytes.now)) }
    ensures err { (seen : Seen) → IfErr result (Stops seen seen (netlist_read library.now bytes.now)) }
    ensures fits { IfOk result (λ netlist. Fits library.now netlist.insts) }
{
    match read(alloc, library, bytes) {
        Ok(netlist) => Ok(netlist),
        Err(NetFault::Memory | NetFault::Statement(_, StatementFault::Memory)) => Err(
            Fault::Memory,
        ),
        Err(NetFault::Syntax(line)) => Err(Fault::Line(FaultLine::NetSyntax(line))),
        Err(NetFault::Statement(line, fault)) => Err(Fault::Line(FaultLine::NetStatement(
            line, fault,
        ))),
    }
}

/// The library in a file.
pub(crate) fn open_library<F: Shelf>(
    alloc: Global,
    shelf: &mut F,
    name: &str,
) -> Result<Library, Fault>
    ensures ok { IfOk result (Passes (F.seen shelf.old) (F.seen shelf.new) (library_opened name.now)) }
    ensures err { IfErr result (Stops (F.seen shelf.old) (F.seen shelf.new) (library_opened name.now)) }
    ensures later { Later (F.seen shelf.old) (F.seen shelf.new) }
{
    let text = open(alloc, shelf, name)?;
    read_library(alloc, text.bytes())
}

/// The netlist in a file, over a library.
pub(crate) fn open_netlist<F: Shelf>(
    alloc: Global,
    shelf: &mut F,
    library: &Library,
    name: &str,
) -> Result<Netlist, Fault>
    ensures ok { IfOk result (Passes (F.seen shelf.old) (F.seen shelf.new) (netlist_opened library.now name.now)) }
    ensures err { IfErr result (Stops (F.seen shelf.old) (F.seen shelf.new) (netlist_opened library.now name.now)) }
    ensures later { Later (F.seen shelf.old) (F.seen shelf.new) }
    ensures fits { IfOk result (λ netlist. Fits library.now netlist.insts) }
{
    let text = open(alloc, shelf, name)?;
    read_netlist(alloc, library, text.bytes())
}

/// The edits in a file.
pub(crate) fn open_edits<F: Shelf>(alloc: Global, shelf: &mut F, name: &str) -> Result<Edits, Fault>
    ensures ok { IfOk result (Passes (F.seen shelf.old) (F.seen shelf.new) (edits_opened name.now)) }
    ensures err { IfErr result (Stops (F.seen shelf.old) (F.seen shelf.new) (edits_opened name.now)) }
    ensures later { Later (F.seen shelf.old) (F.seen shelf.new) }
{
    let text = open(alloc, shelf, name)?;
    accept_edits(alloc, text.bytes())
}

/// The edits that bytes write.
fn accept_edits(alloc: Global, bytes: &[u8]) -> Result<Edits, Fault>
    ensures ok { (seen : Seen) → IfOk result (Passes seen seen (edits_read bytes.now)) }
    ensures err { (seen : Seen) → IfErr result (Stops seen seen (edits_read bytes.now)) }
{
    match read_edits(alloc, bytes) {
        Ok(edits) => Ok(edits),
        Err(EditsFault::Memory) => Err(Fault::Memory),
        Err(EditsFault::Syntax(line)) => Err(Fault::Line(FaultLine::EditsSyntax(line))),
    }
}

/// The line of a netlist that has no analysis.
pub(crate) fn refused(alloc: Global, netlist: &Netlist, fault: &NetlistFault) -> Fault
    requires { NamesBelow (2 * length netlist.now.nets) fault.now }
    ensures { result ≢ Fault.Memory → (fault.now ≢ NetlistFault.Memory) × (result ≡ Line (netlist_line netlist.now fault.now)) }
{
    match netlist_line(alloc, netlist, fault) {
        Ok(line) => Fault::Line(line),
        Err(_) => Fault::Memory,
    }
}

/// A netlist's system with its analysis, by a maker of arrivals.
pub(crate) fn analyse<R: Threads + Sync, M: ArrivalMaker>(
    rt: &R,
    alloc: Global,
    library: &Library,
    netlist: &Netlist,
    maker: &M,
) -> Result<Analysed, Fault>
    requires { Fits library.now netlist.now.insts }
    ensures ok { (seen : Seen) → IfOk result (λ a. Passes seen seen (analysed library.now netlist.now) a.analysis) }
    ensures err { (seen : Seen) → IfErr result (Stops seen seen (analysed library.now netlist.now)) }
    ensures system { IfOk result (λ a. a.system ≡ system_of library.now netlist.now) }
    ensures right { IfOk result (λ a. IsNetlistAnalysis library.now netlist.now a.analysis) }
{
    match analyse_netlist(rt, alloc, library, netlist, maker) {
        Ok(found) => Ok(found),
        Err(fault) => Err(refused(alloc, netlist, &fault)),
    }
}
