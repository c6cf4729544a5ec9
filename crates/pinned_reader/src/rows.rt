//! Versions of a netlist, each with its analysis.
ghost use Rattle.std.specs.Prelude.{◌≡◌, ◌≢◌, ◌*◌, [], IfOk, IfErr, length};
ghost use Rattle.std.specs.Arc.{arc_value};
ghost use Rattle.netlist_model.specs.Sound.{Fits};
ghost use Rattle.netlist_analysis.specs.Findings.{IsNetlistFault, NamesBelow};
ghost use Rattle.netlist_analysis.specs.declared.faults.NetlistFault.TheVariants.{Memory};
ghost use Rattle.pinned_reader.specs.Rows.{RowState, state_of, IsRow, IsAfter, Applies, IsNextFault};

use analysis::Analysis;
use cell_arcs::Library;
use edit_log::{apply, copy_edits};
use netlist_analysis::{Analysed, NetlistFault as RowFault, analyse_netlist, analyse_netlist_from};
use netlist_model::{Edit, Edits, Netlist};
use potentials::ArrivalMaker;
use rule_system::System;
use std::alloc::{AllocError, Global};
use std::marker::Model;
use std::sync::Arc;
use std::thread::Threads;
use version_store::Follows;

/// A version of a netlist: the edits that led to it, its system and its analysis.
#[derive(Drop)]
pub struct Row {
    /// The library, one for all rows that follow one another.
    pub library: Arc<Library, Global>,
    /// The edits that made the netlist of its parent's; none where the row has no parent.
    pub edits: Edits,
    /// The netlist, which fits the library and is whole.
    pub netlist: Netlist,
    /// The netlist's expansion.
    pub system: System,
    /// The system's analysis, from the netlist's root and with its forks.
    pub analysis: Analysis,
}

impl Model for Row {
    ghost Value = { RowState };

    ghost view = { λ r. state_of (arc_value r.library) r.edits r.netlist r.system r.analysis };

    ghost invariant = { λ r.
        IsRow (state_of (arc_value r.library) r.edits r.netlist r.system r.analysis) };
}

// A row follows its parent where it has the parent's library, and the netlist that its own edits make of the parent's.
impl Follows for Row {
    ghost follows = { IsAfter };
}

impl Row {
    /// The row of a netlist that fits the library, with no edits. The library is shared, the netlist is copied.
    ///
    /// # Errors
    ///
    /// The first fault of the netlist, in the order `Whole` (H1 to H4), `Unreached` (V1), `NoReturn` (V2), `Dead` (V3); `Memory` only
    /// for want of memory.
    pub fn base<R: Threads + Sync, M: ArrivalMaker>(
        rt: &R,
        alloc: Global,
        library: &Arc<Library, Global>,
        netlist: &Netlist,
        maker: &M,
    ) -> Result<Row, RowFault>
        requires { Fits (arc_value library.now) netlist.now.insts }
        ensures library { IfOk result (λ r. r.library ≡ arc_value library.now) }
        ensures edits { IfOk result (λ r. r.edits ≡ []) }
        ensures netlist { IfOk result (λ r. r.netlist ≡ netlist.now) }
        ensures right { IfOk result IsRow }
        ensures refused { IfErr result (λ e. e ≢ Memory → IsNetlistFault (arc_value library.now) netlist.now e) }
        ensures events { IfErr result (NamesBelow (2 * length netlist.now.nets)) }
    {
        let analysed = analyse_netlist(rt, alloc, library, netlist, maker)?;
        let netlist = netlist.copy()?;
        Ok(row_of(library, Edits::of(Vec::new(alloc)), netlist, analysed)?)
    }

    /// The row that follows a parent by these edits, which apply to the parent's netlist. The library is shared; the cost is that of
    /// the edits on a copy of the parent's netlist, of a copy of the edits, and of one analysis, whose search for the period begins at
    /// the parent's critical cycle where its rule numbers are still a cycle.
    ///
    /// # Errors
    ///
    /// The first fault of the netlist after the edits, in the order of `base`; `Memory` only for want of memory.
    pub fn next<R: Threads + Sync, M: ArrivalMaker>(
        rt: &R,
        alloc: Global,
        parent: &Row,
        edits: &[Edit],
        maker: &M,
    ) -> Result<Row, RowFault>
        requires { Applies parent.now edits.now }
        ensures edits { IfOk result (λ r. r.edits ≡ edits.now) }
        ensures follows { IfOk result (λ r. IsAfter r parent.now) }
        ensures right { IfOk result IsRow }
        ensures refused { IfErr result (λ e. e ≢ Memory → IsNextFault parent.now edits.now e) }
    {
        // The edits apply, so that only memory can be wanting.
        let Ok(netlist) = apply(&parent.library, &parent.netlist, edits) else {
            return Err(RowFault::Memory);
        };
        let start = parent.analysis.cycle.list();
        let analysed = analyse_netlist_from(rt, alloc, &parent.library, &netlist, maker, start)?;
        let edits = copy_edits(alloc, edits)?;
        Ok(row_of(&parent.library, edits, netlist, analysed)?)
    }

    /// Makes known what holds of every row. It does nothing.
    pub fn right(&self)
        ensures { IsRow self.now }
    {
        let _ = &self.edits;
    }
}

/// The row of a netlist with its system and its analysis. `AllocError` only for want of memory for the handle on the library.
fn row_of(
    library: &Arc<Library, Global>,
    edits: Edits,
    netlist: Netlist,
    analysed: Analysed,
) -> Result<Row, AllocError>
    requires { IsRow (state_of (arc_value library.now) edits netlist analysed.system analysed.analysis) }
    ensures { IfOk result (λ r. r ≡ state_of (arc_value library.now) edits netlist analysed.system analysed.analysis) }
{
    let library = Arc::try_clone(library)?;
    Ok(Row {
        library,
        edits,
        netlist,
        system: analysed.system,
        analysis: analysed.analysis,
    })
}
