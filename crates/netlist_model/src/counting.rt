// How many rules the instances make, without making them.
ghost use Rattle.std.specs.Prelude.{◌≡◌, ◌≤◌, Some, length, slice_get};
ghost use Rattle.std.specs.List.{sum_by};
ghost use Rattle.netlist_model.specs.ArcRules as spec;
ghost use Rattle.netlist_model.specs.Sound.{Fits, IsOfLibrary};

use crate::parts::{Instance, NetRef};
use cell_arcs::{Cell, CellArc, Library, Sense};

/// The cell of an instance: it has at most 16 arcs.
pub(crate) fn cell_of<'a>(library: &'a Library, inst: &Instance) -> &'a Cell
    requires { IsOfLibrary library.now inst.now }
    ensures cell { slice_get library.now inst.now.cell ≡ Some result.now }
    ensures few { length result.now.arcs ≤ 16 }
{
    library.cell(inst.cell)
}

/// How many rules an arc of the sense makes: at most 4.
fn sense_count(sense: Sense) -> u64
    ensures count { result ≡ spec.sense_count sense }
    ensures few { result ≤ 4 }
{
    sense.edges().len() as u64
}

/// How many rules an arc makes: none from a constant.
fn arc_count(pins: &[NetRef], arc: &CellArc) -> u64
    ensures count { result ≡ spec.arc_count pins.now arc.now }
    ensures few { result ≤ 4 }
{
    match pins.get(arc.from).copied() {
        Some(NetRef::Net(_)) => sense_count(arc.sense),
        Some(NetRef::Const(_)) => 0,
        None => 0,
    }
}

/// How many rules the arcs make: at most 4 each.
fn arcs_count(pins: &[NetRef], arcs: &[CellArc]) -> u64
    requires { length arcs.now ≤ 16 }
    ensures count { result ≡ sum_by (spec.arc_count pins.now) arcs.now }
    ensures few { result ≤ 64 }
{
    let mut count = 0;
    for arc in arcs {
        let more = arc_count(pins, arc);
        count += more;
    }
    count
}

/// How many rules an instance makes: at most 64.
fn inst_count(library: &Library, inst: &Instance) -> u64
    requires { IsOfLibrary library.now inst.now }
    ensures count { result ≡ spec.inst_count library.now inst.now }
    ensures few { result ≤ 64 }
{
    let cell = cell_of(library, inst);
    arcs_count(inst.pins.list(), cell.arcs.list())
}

/// How many rules the instances make.
pub(crate) fn insts_count(library: &Library, insts: &[Instance]) -> u64
    requires fits { Fits library.now insts.now }
    requires few { length insts.now ≤ 16384 }
    ensures { result ≡ spec.insts_count library.now insts.now }
{
    let mut count = 0;
    for inst in insts {
        let more = inst_count(library, inst);
        count += more;
    }
    count
}
