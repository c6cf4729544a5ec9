//! The check of a system, which tells the first fault.
ghost use Rattle.std.specs.Prelude.{◌≡◌, ◌<◌, ◌==◌, ℕ, IfOk, IfErr, IfSome, IfNone, length, map, replicate, true};
ghost use Rattle.first_cycle.specs.Levels.{level_of};
ghost use Rattle.liveness_check.specs.Liveness.{IsFault, IsFirstLost, IsLeastUnreached, IsLeastWithoutReturn};
ghost use Rattle.rule_system.specs.FirstCycle.{IsFirstCycle};
ghost use Rattle.rule_system.specs.Walks.{IsConnected, IsLive, Reaches, has_no_offset};

use crate::faults::LiveFault;
use crate::shown::is_shown;
use first_cycle::{first_cycle, levels_from, levels_to};
use rule_system::{Cycle, Rule, System};
use std::alloc::{AllocError, Global};

/// Ok exactly where walks lead from the root to each event and back, and every cycle has an offset; else the first of
/// the faults V1 to V3 that holds. The root is an event. Linear in events and rules. A system without fault is shown to be
/// so by trees of walks, which are searched for without proof, and by an order of its events; faults are told by levels.
pub fn check(alloc: Global, system: &System, root: u32) -> Result<(), LiveFault>
    requires { root < system.now.events }
    ensures connected { IfOk result (λ _. IsConnected system.now.events system.now.rules root) }
    ensures live { IfOk result (λ _. IsLive system.now.rules) }
    ensures fault { IfErr result (λ fault. IsFault system.now.events system.now.rules root fault) }
{
    if is_shown(alloc, system, root)? {
        return Ok(());
    }
    if let Some(event) = least_unreached(alloc, system, root)? {
        return Err(LiveFault::Unreached(event));
    }
    if let Some(event) = least_without_return(alloc, system, root)? {
        return Err(LiveFault::NoReturn(event));
    }
    match dead_cycle(alloc, system)? {
        Some(cycle) => Err(LiveFault::Dead(cycle)),
        None => Ok(()),
    }
}

/// The least event that no walk from the root reaches.
fn least_unreached(alloc: Global, system: &System, root: u32) -> Result<Option<u32>, AllocError>
    requires { root < system.now.events }
    ensures some { IfOk result (λ found. IfSome found (λ event. IsLeastUnreached system.now.events system.now.rules root event)) }
    ensures none { IfOk result (λ found. IfNone found ((event : ℕ) → event < system.now.events → Reaches system.now.rules root event)) }
{
    let keep = all_flags(alloc, system.rules())?;
    let levels = levels_from(alloc, system, &keep, root)?;
    Ok(first_lost(&levels, system.events()))
}

/// The least event from which no walk leads to the root.
fn least_without_return(
    alloc: Global,
    system: &System,
    root: u32,
) -> Result<Option<u32>, AllocError>
    requires { root < system.now.events }
    ensures some { IfOk result (λ found. IfSome found (λ event. IsLeastWithoutReturn system.now.events system.now.rules root event)) }
    ensures none { IfOk result (λ found. IfNone found ((event : ℕ) → event < system.now.events → Reaches system.now.rules event root)) }
{
    let keep = all_flags(alloc, system.rules())?;
    let levels = levels_to(alloc, system, &keep, root)?;
    Ok(first_lost(&levels, system.events()))
}

/// The first event whose level is the number of events, which says that no walk joins it to the root.
fn first_lost(levels: &[u32], events: u32) -> Option<u32>
    requires { length levels.now ≡ events }
    ensures some { IfSome result (λ event. IsFirstLost events levels.now event) }
    ensures none { IfNone result ((event : ℕ) → event < events → level_of levels.now event < events) }
{
    'events: for event in 0..events {
        if levels[event as usize] >= events {
            return Some(event);
        }
    }
    None
}

/// A flag for each rule, which keeps them all.
fn all_flags(alloc: Global, rules: &[Rule]) -> Result<Vec<bool>, AllocError>
    ensures { IfOk result (λ flags. flags.items ≡ replicate (length rules.now) true) }
{
    vec![in alloc; true; rules.len()]
}

/// The first cycle of rules of offset 0.
fn dead_cycle(alloc: Global, system: &System) -> Result<Option<Cycle>, AllocError>
    ensures some { IfOk result (λ found. IfSome found (λ cycle. IsFirstCycle system.now.rules (has_no_offset system.now.rules) cycle)) }
    ensures none { IfOk result (λ found. IfNone found (IsLive system.now.rules)) }
{
    let keep = offset_flags(alloc, system.rules())?;
    first_cycle(alloc, system, &keep)
}

/// Of each rule, whether its offset is 0.
fn offset_flags(alloc: Global, rules: &[Rule]) -> Result<Vec<bool>, AllocError>
    ensures { IfOk result (λ flags. flags.items ≡ map (λ rule. rule.offset == 0) rules.now) }
{
    rules.iter().map(|rule| rule.offset == 0).collect(alloc)
}
