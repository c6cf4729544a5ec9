//! The rules of one instance.
ghost use Rattle.std.specs.Prelude.{◌≡◌, ◌<◌, ◌≤◌, ◌++◌, length, map, OnOk};
ghost use Rattle.cell_arcs.specs.IsLibrary.{IsCell};
ghost use Rattle.netlist_model.specs.Expansion as spec;
ghost use Rattle.netlist_model.specs.Sound.{Fits, FitsCell, IsInstance, IsNetlist};
ghost use Rattle.event_expand.specs.Pieces.{rules_at};
ghost use Rattle.event_expand.specs.Systems.{system_rule};

use crate::arcs::push_arc;
use cell_arcs::{Cell, Library};
use netlist_model::{Instance, Netlist};
use rule_system::Rule;
use std::alloc::AllocError;

/// Adds the rules of the arcs of an instance's cell, in order. The output pin stands behind the inputs.
#[tactic(auto, using(crate::proofs::ArcLemmas::arc_at_pin, crate::proofs::ArcLemmas::small_pin))]
fn push_arcs(
    rules: &mut Vec<Rule>,
    net: &Netlist,
    instance: &Instance,
    cell: &Cell,
) -> Result<(), AllocError>
    requires instance { IsInstance (length net.now.nets) (length net.now.consts) instance.now }
    requires few { length net.now.nets ≤ 16384 }
    requires cell { IsCell cell.now }
    requires fits { FitsCell cell.now instance.now }
    ensures { OnOk result (rules.new.items ≡ rules.old.items ++ map system_rule (spec.rules_of_arcs net.now.ticks instance.now 0 cell.now.arcs)) }
{
    let pins = instance.pins.list();
    let output = pins[cell.inputs.list().len()];
    let delays = instance.delays.list();
    'arcs: for (place, arc) in cell.arcs.list().iter().enumerate() {
        let input = pins[arc.from];
        let own = delays[place];
        push_arc(rules, net, *arc, own, input, output)?;
    }
    Ok(())
}

/// Adds the rules of the instance at a place.
pub(crate) fn push_instance(
    rules: &mut Vec<Rule>,
    library: &Library,
    net: &Netlist,
    at: usize,
) -> Result<(), AllocError>
    requires within { at < length net.now.insts }
    requires sound { IsNetlist net.now }
    requires fits { Fits library.now net.now.insts }
    ensures { OnOk result (rules.new.items ≡ rules.old.items ++ rules_at library.now net.now at) }
{
    let instance = net.inst(at);
    let cell = library.cell(instance.cell);
    push_arcs(rules, net, instance, cell)
}
