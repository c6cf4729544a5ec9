//! A netlist's system and its analysis.
ghost use Rattle.std.specs.Prelude.{◌≡◌, ◌≢◌, ◌≤◌, ◌<◌, ◌*◌, All, IfOk, IfErr, Ok, Err, Some, length, map};
ghost use Rattle.liveness_check.specs.Liveness.{IsFault};
ghost use Rattle.netlist_model.specs.Expansion.{rules_of};
ghost use Rattle.netlist_model.specs.Sound.{Fits};
ghost use Rattle.rule_system.specs.Bounds.{most_rules};
ghost use Rattle.rule_system.specs.Rules.{source_of};
ghost use Rattle.analysis.specs.Faults.{live_fault};
ghost use Rattle.event_expand.specs.Systems.{system_of};
ghost use Rattle.netlist_analysis.specs.Findings.{IsFinding, IsRooted, NamesBelow};

use crate::faults::{EventList, NetlistFault};
use analysis::{AnalyseFault, Analysis, analyse_from};
use cell_arcs::Library;
use event_expand::{expand, forks_of};
use netlist_model::{Netlist, WholeFault};
use potentials::ArrivalMaker;
use rule_system::laws::first_cycles_have_small_sums;
use rule_system::{Rule, System};
use std::alloc::{AllocError, Global};
use std::thread::Threads;

/// A netlist's system, and its analysis from the netlist's root with the netlist's forks.
#[derive(Drop)]
pub struct Analysed {
    /// Two events for each net with events, and the rules of the expansion.
    pub system: System,
    /// Its analysis.
    pub analysis: Analysis,
}

/// The source events of the rules of a cycle.
fn sources(alloc: Global, rules: &[Rule], cycle: &[u32]) -> Result<EventList, AllocError>
    requires within { All (λ n. n < length rules.now) cycle.now }
    ensures { IfOk result (λ events. events ≡ map (source_of rules.now) cycle.now) }
{
    let mut events = Vec::new(alloc);
    'numbers: for number in cycle {
        events.push(rules[*number as usize].source)?;
    }
    Ok(EventList::of(events))
}

/// The fault of a netlist whose system is not connected from its root or not live.
fn system_fault(
    alloc: Global,
    library: &Library,
    netlist: &Netlist,
    root: u32,
    system: &System,
    fault: AnalyseFault,
) -> NetlistFault
    requires system { system.now ≡ system_of library.now netlist.now }
    requires rooted { IsRooted library.now netlist.now root }
    requires holds { IsFault system.now.events system.now.rules root (live_fault fault) }
    ensures found { result ≢ NetlistFault.Memory → IsFinding library.now netlist.now (Err result) }
    ensures events { NamesBelow system.now.events result }
{
    first_cycles_have_small_sums();
    let rules = system.rules();
    match fault {
        AnalyseFault::Unreached(event) => NetlistFault::Unreached(event),
        AnalyseFault::NoReturn(event) => NetlistFault::NoReturn(event),
        AnalyseFault::Dead(cycle) => match sources(alloc, rules, cycle.list()) {
            Ok(events) => NetlistFault::Dead(events),
            Err(_) => NetlistFault::Memory,
        },
        AnalyseFault::Memory => NetlistFault::Memory,
    }
}

/// The analysis of a netlist that is whole, from its root.
fn analyse_whole<R: Threads + Sync, M: ArrivalMaker>(
    rt: &R,
    alloc: Global,
    library: &Library,
    netlist: &Netlist,
    root: u32,
    maker: &M,
    start: &[u32],
) -> Result<Analysed, NetlistFault>
    requires fits { Fits library.now netlist.now.insts }
    requires few { length (rules_of library.now netlist.now) ≤ most_rules }
    requires rooted { IsRooted library.now netlist.now root }
    ensures system { IfOk result (λ a. a.system ≡ system_of library.now netlist.now) }
    ensures found { IfOk result (λ a. IsFinding library.now netlist.now (Ok a.analysis)) }
    ensures refused { IfErr result (λ e. e ≢ NetlistFault.Memory → IsFinding library.now netlist.now (Err e)) }
    ensures events { IfErr result (NamesBelow (2 * length netlist.now.nets)) }
{
    netlist.sound();
    let system = expand(rt, alloc, library, netlist)?;
    let forks = forks_of(alloc, netlist)?;
    match analyse_from(rt, alloc, &system, root, &forks, maker, start) {
        Ok(analysis) => Ok(Analysed { system, analysis }),
        Err(fault) => Err(system_fault(alloc, library, netlist, root, &system, fault)),
    }
}

/// The system of a netlist with its analysis, from the netlist's root and with its forks.
///
/// # Errors
///
/// The first that holds: `Whole` where the netlist is not whole, with the first of H1 to H4; `Unreached` (V1) with the least
/// event that no walk from the root reaches; `NoReturn` (V2) with the least event from which no walk leads to the root; `Dead`
/// (V3) with the source events of the rules of the first cycle of offset 0. `Memory` only for want of memory. Events are the
/// netlist's.
pub fn analyse_netlist<R: Threads + Sync, M: ArrivalMaker>(
    rt: &R,
    alloc: Global,
    library: &Library,
    netlist: &Netlist,
    maker: &M,
) -> Result<Analysed, NetlistFault>
    requires { Fits library.now netlist.now.insts }
    ensures system { IfOk result (λ a. a.system ≡ system_of library.now netlist.now) }
    ensures found { IfOk result (λ a. IsFinding library.now netlist.now (Ok a.analysis)) }
    ensures refused { IfErr result (λ e. e ≢ NetlistFault.Memory → IsFinding library.now netlist.now (Err e)) }
    ensures events { IfErr result (NamesBelow (2 * length netlist.now.nets)) }
{
    analyse_netlist_from(rt, alloc, library, netlist, maker, &[])
}

/// What `analyse_netlist` answers, whatever the start: rule numbers of the netlist's system, of which the search for the
/// period makes use where they are a cycle.
///
/// # Errors
///
/// Those of `analyse_netlist`.
pub fn analyse_netlist_from<R: Threads + Sync, M: ArrivalMaker>(
    rt: &R,
    alloc: Global,
    library: &Library,
    netlist: &Netlist,
    maker: &M,
    start: &[u32],
) -> Result<Analysed, NetlistFault>
    requires { Fits library.now netlist.now.insts }
    ensures system { IfOk result (λ a. a.system ≡ system_of library.now netlist.now) }
    ensures found { IfOk result (λ a. IsFinding library.now netlist.now (Ok a.analysis)) }
    ensures refused { IfErr result (λ e. e ≢ NetlistFault.Memory → IsFinding library.now netlist.now (Err e)) }
    ensures events { IfErr result (NamesBelow (2 * length netlist.now.nets)) }
{
    match netlist.check_whole(library) {
        Err(fault) => Err(NetlistFault::Whole(fault)),
        Ok(()) => match netlist.root() {
            Some(root) => analyse_whole(rt, alloc, library, netlist, root, maker, start),
            None => Err(NetlistFault::Whole(WholeFault::NoRoot)),
        },
    }
}
