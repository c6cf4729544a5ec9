//! A tree of walks between the root and the other events.

use rule_system::{Rule, System};
use std::alloc::{AllocError, Global};

/// Whether walks lead from the root or to it.
#[derive(Clone, Copy, Drop)]
pub(crate) enum Way {
    From,
    To,
}

/// Of each event its rank, which rises along walks away from the root, and the rule that joins it to an event of lower
/// rank. An event that no walk joins has the number of events for its rank.
#[derive(Drop)]
pub(crate) struct Tree {
    pub(crate) ranks: Vec<u32>,
    pub(crate) rules: Vec<u32>,
}

/// A tree of walks from the root or to it, by a breadth-first search (E. F. Moore, 1959). Linear in events and rules.
pub(crate) fn tree_of(
    alloc: Global,
    system: &System,
    root: u32,
    way: Way,
) -> Result<Tree, AllocError> {
    let events = system.events();
    let mut tree = Tree {
        ranks: vec![in alloc; events; events as usize]?,
        rules: vec![in alloc; 0u32; events as usize]?,
    };
    let mut queue = Vec::with_capacity(alloc, events as usize)?;
    if tree.join(root, 0, 0) {
        queue.push(root)?;
    }
    'turns: for turn in 0..events {
        let Some(event) = queue.get(turn as usize).copied() else {
            break;
        };
        grow(system, way, event, &mut tree, &mut queue)?;
    }
    Ok(tree)
}

/// Joins the events that one rule parts from an event.
fn grow(
    system: &System,
    way: Way,
    event: u32,
    tree: &mut Tree,
    queue: &mut Vec<u32>,
) -> Result<(), AllocError> {
    if event >= system.events() {
        return Ok(());
    }
    let rules = system.rules();
    let numbers = match way {
        Way::From => system.out_of_event(event),
        Way::To => system.into_event(event),
    };
    'rules: for number in numbers {
        let Some(rule) = rules.get(*number as usize) else {
            continue;
        };
        let next = far_end(rule, way);
        let rank = u32::try_from(queue.len()).unwrap_or(0);
        if tree.join(next, rank, *number) {
            queue.push(next)?;
        }
    }
    Ok(())
}

/// The end of a rule that is farther from the root.
fn far_end(rule: &Rule, way: Way) -> u32 {
    match way {
        Way::From => rule.target,
        Way::To => rule.source,
    }
}

impl Tree {
    /// Joins an event by a rule, if none has, and answers whether it did.
    fn join(&mut self, event: u32, rank: u32, rule: u32) -> bool {
        let none = self.ranks.len();
        let Some(place) = self.ranks.get_mut(event as usize) else {
            return false;
        };
        if (*place as usize) < none {
            return false;
        }
        *place = rank;
        if let Some(joined) = self.rules.get_mut(event as usize) {
            *joined = rule;
        }
        true
    }
}
