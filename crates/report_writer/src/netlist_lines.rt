//! The line of a netlist that has no analysis.
ghost use Rattle.std.specs.Prelude.{◌≡◌, ◌≢◌, ◌<◌, ◌*◌, All, IfOk, length, map};
ghost use Rattle.netlist_model.specs.EventNames.{event_name, name_at};
ghost use Rattle.netlist_analysis.specs.Findings.{NamesBelow};
ghost use Rattle.report_writer.specs.NetlistLines as spec;

use crate::faults::{FaultLine, Names};
use cyc_text::Text;
use netlist_analysis::NetlistFault;
use netlist_model::{Netlist, WholeFault};
use std::alloc::{AllocError, Global};

/// The name of the net at a place; none where there is no such net.
fn net_name(netlist: &Netlist, at: usize) -> &[u8]
    ensures { result.now ≡ name_at netlist.now.nets at }
{
    if at < netlist.net_count() {
        netlist.net_name(at)
    } else {
        b""
    }
}

/// The line of a netlist that is not whole.
fn whole_line(alloc: Global, netlist: &Netlist, fault: WholeFault) -> Result<FaultLine, AllocError>
    ensures { IfOk result (λ line. line ≡ spec.whole_line netlist.now fault) }
{
    match fault {
        WholeFault::Undriven(position) => {
            let name = Text::of(alloc, net_name(netlist, position.saturating_sub(1)))?;
            Ok(FaultLine::Undriven(name))
        }
        WholeFault::NoRoot => Ok(FaultLine::NoRoot),
        WholeFault::IdleTick(position) => Ok(FaultLine::IdleTick(position as u64)),
        WholeFault::TooManyRules(count) => Ok(FaultLine::TooManyRules(count)),
    }
}

/// The names of events.
fn event_names(alloc: Global, netlist: &Netlist, events: &[u32]) -> Result<Names, AllocError>
    requires { All (λ event. event < 2 * length netlist.now.nets) events.now }
    ensures { IfOk result (λ names. names ≡ map (event_name netlist.now.nets) events.now) }
{
    let mut names = Vec::new(alloc);
    'events: for event in events {
        names.push(netlist.event_name(*event)?)?;
    }
    Ok(Names::of(names))
}

/// The line of a netlist that has no analysis: a net or an event is told by its name, a tick by its position. The events of the fault
/// are the netlist's. `AllocError` only for want of memory, which is also the answer for a fault that is one.
pub fn netlist_line(
    alloc: Global,
    netlist: &Netlist,
    fault: &NetlistFault,
) -> Result<FaultLine, AllocError>
    requires { NamesBelow (2 * length netlist.now.nets) fault.now }
    ensures { IfOk result (λ line. (fault.now ≢ NetlistFault.Memory) × (line ≡ spec.netlist_line netlist.now fault.now)) }
{
    match fault {
        NetlistFault::Whole(fault) => whole_line(alloc, netlist, *fault),
        NetlistFault::Unreached(event) => Ok(FaultLine::Unreached(netlist.event_name(*event)?)),
        NetlistFault::NoReturn(event) => Ok(FaultLine::NoReturn(netlist.event_name(*event)?)),
        NetlistFault::Dead(events) => Ok(FaultLine::Dead(event_names(
            alloc,
            netlist,
            events.list(),
        )?)),
        NetlistFault::Memory => Err(AllocError),
    }
}
