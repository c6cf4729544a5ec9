// The first net that no instance drives, and the first tick that no rule has.
ghost use Rattle.std.specs.Prelude.{◌≡◌, ◌≤◌, ◌<◌, ◌*◌, IfSome, length, map, position};
ghost use Rattle.std.specs.List.{flat_map, list_any};
ghost use Rattle.netlist_model.specs.ArcRules as spec;
ghost use Rattle.netlist_model.specs.Sound.{Fits, IsOfLibrary};
ghost use Rattle.netlist_model.specs.Whole.{undriven_from};

use crate::counting::cell_of;
use crate::instances::Instances;
use crate::names::Names;
use crate::parts::{Instance, NetRef, Tick};
use cell_arcs::{CellArc, EdgePair, Library, Sense};

/// The first net that no instance drives.
pub(crate) fn first_undriven(insts: &Instances, nets: &Names) -> Option<usize>
    requires { length nets.now ≤ 16384 }
    ensures found { result ≡ undriven_from insts.now 0 nets.now }
    ensures within { IfSome result (λ at. at < length nets.now) }
{
    for at in 0..nets.count() {
        if insts.driver(at as u32).is_none() {
            return Some(at);
        }
    }
    None
}

/// Whether the edges of a pair are these, which rise or not.
fn is_pair(source: bool, target: bool, pair: &EdgePair) -> bool
    ensures { result ≡ spec.is_pair source target pair.now }
{
    pair.input == source && pair.output == target
}

/// Whether an arc of the sense leads from an edge, which rises or not, to an edge.
fn leads(sense: Sense, source: bool, target: bool) -> bool
    ensures { result ≡ spec.leads sense source target }
{
    sense
        .edges()
        .iter()
        .any(|pair| is_pair(source, target, pair))
}

/// Whether an arc leads between the events of a tick to its output's net.
fn arc_joins(pins: &[NetRef], tick: &Tick, arc: &CellArc) -> bool
    ensures { result ≡ spec.arc_joins pins.now tick.now arc.now }
{
    match pins.get(arc.from).copied() {
        Some(NetRef::Net(net)) => {
            net == tick.source / 2 && leads(arc.sense, tick.source % 2 == 0, tick.target % 2 == 0)
        }
        Some(NetRef::Const(_)) => false,
        None => false,
    }
}

fn arcs_join(pins: &[NetRef], tick: &Tick, arcs: &[CellArc]) -> bool
    ensures { result ≡ list_any (spec.arc_joins pins.now tick.now) arcs.now }
{
    arcs.iter().any(|arc| arc_joins(pins, tick, arc))
}

/// Whether an arc of an instance leads between the events of a tick to its output's net.
fn inst_joins(library: &Library, tick: &Tick, inst: &Instance) -> bool
    requires { IsOfLibrary library.now inst.now }
    ensures { result ≡ spec.inst_joins library.now tick.now inst.now }
{
    let cell = cell_of(library, inst);
    arcs_join(inst.pins.list(), tick, cell.arcs.list())
}

/// Whether no rule leads between the events of a tick. A rule to its target is of the one instance
/// that drives the target's net.
fn is_unjoined(library: &Library, insts: &Instances, tick: &Tick) -> bool
    requires { Fits library.now insts.now }
    ensures { result ≡ spec.is_unjoined library.now insts.now tick.now }
{
    match insts.driver(tick.target / 2) {
        Some(at) => !inst_joins(library, tick, &insts.list()[at]),
        None => true,
    }
}

fn first_idle_in(library: &Library, insts: &Instances, ticks: &[Tick]) -> Option<usize>
    requires { Fits library.now insts.now }
    ensures place { result ≡ position (spec.is_unjoined library.now insts.now) ticks.now }
    ensures within { IfSome result (λ at. at < length ticks.now) }
{
    ticks
        .iter()
        .position(|tick| is_unjoined(library, insts, tick))
}

/// The first tick of the blocks, one after the other, that no rule has.
pub(crate) fn first_idle(
    library: &Library,
    insts: &Instances,
    blocks: &[Vec<Tick>],
) -> Option<usize>
    requires fits { Fits library.now insts.now }
    requires small { length (flat_map (λ b. b) (map (λ b. b.items) blocks.now)) ≤ usize.MAX }
    ensures place { result ≡ position (spec.is_unjoined library.now insts.now) (flat_map (λ b. b) (map (λ b. b.items) blocks.now)) }
    ensures within { IfSome result (λ at. at < length (flat_map (λ b. b) (map (λ b. b.items) blocks.now))) }
{
    let mut before = 0;
    for block in blocks {
        match first_idle_in(library, insts, block) {
            Some(at) => return Some(before + at),
            None => before += block.len(),
        }
    }
    None
}
