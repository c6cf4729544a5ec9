//! Whether trees that a search proposes, and an order of the events, show that a system is connected and live.
ghost use Rattle.std.specs.Prelude.{◌≡◌, ◌<◌, ℕ, IfOk, true};
ghost use Rattle.liveness_check.specs.Shown.{ComesLower, GoesLower, rank_of};
ghost use Rattle.rule_system.specs.Walks.{IsConnected, IsLive, Reaches};

use crate::search::{Tree, Way, tree_of};
use rule_system::laws::forward_orders_show_liveness;
use rule_system::orders::order;
use rule_system::{Rule, System};
use std::alloc::{AllocError, Global};

/// Whether walks from the root and back were found, and an order along rules of offset 0. Where they were not, nothing is
/// said. Linear in events and rules.
pub(crate) fn is_shown(alloc: Global, system: &System, root: u32) -> Result<bool, AllocError>
    ensures connected { IfOk result (λ shown. shown ≡ true → IsConnected system.now.events system.now.rules root) }
    ensures live { IfOk result (λ shown. shown ≡ true → IsLive system.now.rules) }
{
    let from = tree_of(alloc, system, root, Way::From)?;
    if !all_come_lower(system, &from, root) {
        return Ok(false);
    }
    let to = tree_of(alloc, system, root, Way::To)?;
    if !all_go_lower(system, &to, root) {
        return Ok(false);
    }
    forward_orders_show_liveness();
    Ok(order(alloc, system)?.is_some())
}

/// Whether each event but the root has a rule to it from an event of lower rank. Then walks lead from the root to all.
fn all_come_lower(system: &System, tree: &Tree, root: u32) -> bool
    ensures { result ≡ true → (event : ℕ) → event < system.now.events → Reaches system.now.rules root event }
{
    let rules = system.rules();
    'events: for event in 0..system.events() {
        if event != root && !comes_lower(rules, tree, event) {
            return false;
        }
    }
    true
}

/// Whether an event's rule leads to it from an event of lower rank.
fn comes_lower(rules: &[Rule], tree: &Tree, event: u32) -> bool
    ensures { result ≡ true → ComesLower rules.now tree.now.ranks.items event }
{
    let Some(number) = tree.rules.get(event as usize) else {
        return false;
    };
    let Some(rule) = rules.get(*number as usize) else {
        return false;
    };
    rule.target == event && is_lower(&tree.ranks, rule.source, event)
}

/// Whether each event but the root has a rule from it to an event of lower rank. Then walks lead from all to the root.
fn all_go_lower(system: &System, tree: &Tree, root: u32) -> bool
    ensures { result ≡ true → (event : ℕ) → event < system.now.events → Reaches system.now.rules event root }
{
    let rules = system.rules();
    'events: for event in 0..system.events() {
        if event != root && !goes_lower(rules, tree, event) {
            return false;
        }
    }
    true
}

/// Whether an event's rule leads from it to an event of lower rank.
fn goes_lower(rules: &[Rule], tree: &Tree, event: u32) -> bool
    ensures { result ≡ true → GoesLower rules.now tree.now.ranks.items event }
{
    let Some(number) = tree.rules.get(event as usize) else {
        return false;
    };
    let Some(rule) = rules.get(*number as usize) else {
        return false;
    };
    rule.source == event && is_lower(&tree.ranks, rule.target, event)
}

/// Whether an event's rank is below another's.
fn is_lower(ranks: &[u32], event: u32, other: u32) -> bool
    ensures { result ≡ true → rank_of ranks.now event < rank_of ranks.now other }
{
    match (ranks.get(event as usize), ranks.get(other as usize)) {
        (Some(rank), Some(above)) => rank < above,
        _ => false,
    }
}
