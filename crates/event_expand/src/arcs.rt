//! The rules of one arc.
ghost use Rattle.std.specs.Prelude.{◌≡◌, ◌<◌, ◌++◌, ◌∷◌, [], map, Some, OnOk};
ghost use Rattle.netlist_model.specs.Circuit.{event_at};
ghost use Rattle.netlist_model.specs.Expansion as spec;
ghost use Rattle.event_expand.specs.Pieces.{IsSmall};
ghost use Rattle.event_expand.specs.Systems.{system_rule};

use cell_arcs::{CellArc, EdgePair, Sense};
use netlist_model::{Delay, NetRef, Netlist};
use rule_system::Rule;
use std::alloc::AllocError;

/// The event where a net rises or falls.
fn event(net: u32, rising: bool) -> u32
    requires { net < 16384 }
    ensures { result ≡ event_at rising net }
{
    if rising { 2 * net } else { 2 * net + 1 }
}

/// Adds the rule from an event to another, with the offset that the netlist gives the pair.
fn push_rule(
    rules: &mut Vec<Rule>,
    net: &Netlist,
    source: u32,
    target: u32,
    delay: u32,
) -> Result<(), AllocError>
    ensures { OnOk result (rules.new.items ≡ rules.old.items ++ system_rule (spec.rule_of net.now.ticks source target delay) ∷ []) }
{
    let offset = net.offset(source, target);
    rules.push(Rule {
        source,
        target,
        delay,
        offset,
    })?;
    Ok(())
}

/// The delay of an arc to an edge of its output, which rises or not.
fn delay_to(rising: bool, delay: Delay) -> u32
    ensures { result ≡ spec.delay_to rising delay }
{
    if rising { delay.rise } else { delay.fall }
}

/// Adds the rule of an arc for a pair of edges.
fn push_pair(
    rules: &mut Vec<Rule>,
    net: &Netlist,
    pair: EdgePair,
    input: u32,
    output: u32,
    delay: Delay,
) -> Result<(), AllocError>
    requires input { input < 16384 }
    requires output { output < 16384 }
    ensures { OnOk result (rules.new.items ≡ rules.old.items ++ system_rule (spec.edge_rule net.now.ticks input output delay pair) ∷ []) }
{
    let source = event(input, pair.input);
    let target = event(output, pair.output);
    push_rule(rules, net, source, target, delay_to(pair.output, delay))
}

/// Adds the rules of an arc from an input's net to an output's net, one for each pair of edges of its sense.
fn push_edges(
    rules: &mut Vec<Rule>,
    net: &Netlist,
    sense: Sense,
    input: u32,
    output: u32,
    delay: Delay,
) -> Result<(), AllocError>
    requires input { input < 16384 }
    requires output { output < 16384 }
    ensures { OnOk result (rules.new.items ≡ rules.old.items ++ map system_rule (spec.rules_by sense net.now.ticks input output delay)) }
{
    for pair in sense.edges() {
        push_pair(rules, net, *pair, input, output, delay)?;
    }
    Ok(())
}

/// The delays of an arc: those that the instance has of its own, or else the cell's.
fn delay_of(arc: CellArc, own: Option<Delay>) -> Delay
    ensures { result ≡ spec.delay_of arc (Some own) }
{
    own.unwrap_or(Delay {
        rise: arc.rise,
        fall: arc.fall,
    })
}

/// Adds the rules of an arc from what its input pin is on to what the output is on. An arc from a constant makes none.
pub(crate) fn push_arc(
    rules: &mut Vec<Rule>,
    net: &Netlist,
    arc: CellArc,
    own: Option<Delay>,
    input: NetRef,
    output: NetRef,
) -> Result<(), AllocError>
    requires input { IsSmall input }
    requires output { IsSmall output }
    ensures { OnOk result (rules.new.items ≡ rules.old.items ++ map system_rule (spec.rules_of_arc net.now.ticks (Some input) (Some output) arc (spec.delay_of arc (Some own)))) }
{
    let NetRef::Net(input) = input else {
        return Ok(());
    };
    let NetRef::Net(output) = output else {
        return Ok(());
    };
    let delay = delay_of(arc, own);
    push_edges(rules, net, arc.sense, input, output, delay)
}
