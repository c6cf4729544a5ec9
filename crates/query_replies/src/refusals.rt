//! Why the netlist of a draft is no version.
ghost use Rattle.std.specs.Prelude.{◌≡◌, ◌≢◌, ◌*◌, All, ◌<◌, IfOk, length};
ghost use Rattle.netlist_model.specs.EventNames.{name_at};
ghost use Rattle.netlist_analysis.specs.Findings.{NamesBelow};
ghost use Rattle.query_replies.specs.Readings as spec;

use cyc_text::Text;
use netlist_analysis::NetlistFault;
use netlist_model::{Netlist, WholeFault};
use session_machine::Refusal;
use std::alloc::{AllocError, Global};

/// The name of the net at a place; none where there is no such net.
fn net_name(netlist: &Netlist, at: usize) -> &[u8]
    ensures { result.now ≡ name_at netlist.now.nets at }
{
    if at < netlist.net_count() {
        netlist.net_name(at)
    } else {
        b""
    }
}

/// The refusal of a netlist that is not whole.
fn whole_refusal(alloc: Global, netlist: &Netlist, fault: WholeFault) -> Result<Refusal, AllocError>
    ensures { IfOk result (λ r. r ≡ spec.whole_refusal netlist.now.nets fault) }
{
    match fault {
        WholeFault::Undriven(position) => {
            let name = Text::of(alloc, net_name(netlist, position.saturating_sub(1)))?;
            Ok(Refusal::Undriven(name))
        }
        WholeFault::NoRoot => Ok(Refusal::NoRoot),
        WholeFault::IdleTick(position) => Ok(Refusal::IdleTick(position as u64)),
        WholeFault::TooManyRules(count) => Ok(Refusal::TooManyRules(count)),
    }
}

/// The name of the first of these events.
fn first_name(alloc: Global, netlist: &Netlist, events: &[u32]) -> Result<Text, AllocError>
    requires { All (λ event. event < 2 * length netlist.now.nets) events.now }
    ensures { IfOk result (λ name. name ≡ spec.first_name netlist.now.nets events.now) }
{
    match events {
        [] => Text::of(alloc, b""),
        [first, ..] => netlist.event_name(*first),
    }
}

/// The refusal of a draft whose netlist has a fault: a net or an event is told by its name, a tick by its position, a dead cycle by its
/// length and its first event. The events of the fault are the netlist's. `AllocError` only for want of memory, which is also the answer
/// for a fault that is one.
pub fn net_refusal(
    alloc: Global,
    netlist: &Netlist,
    fault: &NetlistFault,
) -> Result<Refusal, AllocError>
    requires { NamesBelow (2 * length netlist.now.nets) fault.now }
    ensures { IfOk result (λ r. (fault.now ≢ NetlistFault.Memory) × (r ≡ spec.net_refusal netlist.now.nets fault.now)) }
{
    match fault {
        NetlistFault::Whole(fault) => whole_refusal(alloc, netlist, *fault),
        NetlistFault::Unreached(event) => Ok(Refusal::Unreached(netlist.event_name(*event)?)),
        NetlistFault::NoReturn(event) => Ok(Refusal::NoReturn(netlist.event_name(*event)?)),
        NetlistFault::Dead(events) => {
            let first = first_name(alloc, netlist, events.list())?;
            Ok(Refusal::Dead(events.list().len() as u64, first))
        }
        NetlistFault::Memory => Err(AllocError),
    }
}
