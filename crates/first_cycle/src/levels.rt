//! How many kept rules it takes to an event at least, and from one.
ghost use Rattle.std.specs.Prelude.{◌≡◌, ◌<◌, ◌≤◌, ℕ, All, IfOk, true, false, length, sum, ◌+◌, nat_lt};
ghost use Rattle.first_cycle.specs.Levels.{AreFound, AreLevels, AreLevelsFrom, AreReached, AreSettled, level_of, lowered};
ghost use Rattle.first_cycle.specs.Ways.{rules_along};
ghost use Rattle.rule_system.specs.Rules.{rule_at};
ghost use Rattle.rule_system.specs.Walks.{EndsBelow};

use rule_system::{Rule, System};
use std::alloc::{AllocError, Global};

/// Whether walks lead to an event or from it.
#[derive(Clone, Copy, Drop)]
enum Way {
    To,
    From,
}

/// For each event how many kept rules it takes to the end at least, or the number of events where none lead there.
/// `keep` has a flag for each rule, and `end` is an event.
///
/// A breadth-first search finds them (E. F. Moore, 1959), and a pass over the rules shows that they are the least.
/// Linear in events and rules.
pub fn levels_to(
    alloc: Global,
    system: &System,
    keep: &[bool],
    end: u32,
) -> Result<Vec<u32>, AllocError>
    requires keep { length keep.now ≡ length system.now.rules }
    requires end { end < system.now.events }
    ensures { IfOk result (λ levels. AreLevels system.now.events system.now.rules keep.now end levels.items) }
{
    levels_along(alloc, system, keep, Way::To, end)
}

/// For each event how many kept rules it takes from the start at least, or the number of events where none lead from
/// there. `keep` has a flag for each rule, and `start` is an event. Found as `levels_to` finds levels, and as fast.
pub fn levels_from(
    alloc: Global,
    system: &System,
    keep: &[bool],
    start: u32,
) -> Result<Vec<u32>, AllocError>
    requires keep { length keep.now ≡ length system.now.rules }
    requires start { start < system.now.events }
    ensures { IfOk result (λ levels. AreLevelsFrom system.now.events system.now.rules keep.now start levels.items) }
{
    levels_along(alloc, system, keep, Way::From, start)
}

/// Levels of walks to an event or from it.
fn levels_along(
    alloc: Global,
    system: &System,
    keep: &[bool],
    way: Way,
    end: u32,
) -> Result<Vec<u32>, AllocError>
    requires keep { length keep.now ≡ length system.now.rules }
    requires end { end < system.now.events }
    ensures { IfOk result (λ levels. AreLevels system.now.events (rules_along way system.now.rules) keep.now end levels.items) }
{
    let mut levels = found_levels(alloc, system, keep, way, end)?;
    settle(system, keep, way, end, &mut levels);
    Ok(levels)
}

/// Levels that a breadth-first search from the end finds.
fn found_levels(
    alloc: Global,
    system: &System,
    keep: &[bool],
    way: Way,
    end: u32,
) -> Result<Vec<u32>, AllocError>
    requires keep { length keep.now ≡ length system.now.rules }
    requires end { end < system.now.events }
    ensures { IfOk result (λ levels. AreFound system.now.events (rules_along way system.now.rules) keep.now end levels.items) }
{
    let events = system.events();
    let mut levels = vec![in alloc; events; events as usize]?;
    levels[end as usize] = 0;
    let mut queue = Vec::with_capacity(alloc, events as usize)?;
    queue.push(end)?;
    'visits: for next in 0..events as usize {
        if next >= queue.len() {
            break;
        }
        let event = queue[next];
        visit(system, keep, way, end, event, &mut levels, &mut queue)?;
    }
    Ok(levels)
}

/// Lowers the events that one kept rule parts from an event, and queues those that it lowered.
fn visit(
    system: &System,
    keep: &[bool],
    way: Way,
    end: u32,
    event: u32,
    levels: &mut [u32],
    queue: &mut Vec<u32>,
) -> Result<(), AllocError>
    requires keep { length keep.now ≡ length system.now.rules }
    requires event { event < system.now.events }
    requires found { AreFound system.now.events (rules_along way system.now.rules) keep.now end levels.old }
    requires queue { All (λ queued. queued < system.now.events) queue.old.items }
    ensures found { AreFound system.now.events (rules_along way system.now.rules) keep.now end levels.new }
    ensures queue { All (λ queued. queued < system.now.events) queue.new.items }
{
    'rules: for number in rules_at(system, way, event) {
        if lower_along(system, keep, way, end, *number, levels) {
            queue.push(rule_along(system, way, *number as usize).source)?;
        }
    }
    Ok(())
}

/// The numbers of the rules by which walks come to an event that end there or, the other way, start there.
fn rules_at(system: &System, way: Way, event: u32) -> &[u32]
    requires event { event < system.now.events }
    ensures { All (λ number. number < length system.now.rules) result.now }
{
    match way {
        Way::To => system.into_event(event),
        Way::From => system.out_of_event(event),
    }
}

/// A rule, turned round where walks lead from the event.
fn rule_along(system: &System, way: Way, number: usize) -> Rule
    requires number { number < length system.now.rules }
    ensures rule { result ≡ rule_at (rules_along way system.now.rules) number }
    ensures source { result.source < system.now.events }
    ensures target { result.target < system.now.events }
    ensures ends { EndsBelow system.now.events system.now.rules }
{
    let rule = system.rules()[number];
    match way {
        Way::To => rule,
        Way::From => Rule {
            source: rule.target,
            target: rule.source,
            delay: rule.delay,
            offset: rule.offset,
        },
    }
}

/// Lowers the level of a rule's source, if the rule is kept, and answers whether it did.
fn lower_along(
    system: &System,
    keep: &[bool],
    way: Way,
    end: u32,
    number: u32,
    levels: &mut [u32],
) -> bool
    requires keep { length keep.now ≡ length system.now.rules }
    requires number { number < length system.now.rules }
    requires found { AreFound system.now.events (rules_along way system.now.rules) keep.now end levels.old }
    ensures { AreFound system.now.events (rules_along way system.now.rules) keep.now end levels.new }
{
    if !keep[number as usize] {
        return false;
    }
    lower_source(rule_along(system, way, number as usize), levels)
}

/// Lowers levels until none can be lowered: one pass where they are the least already.
fn settle(system: &System, keep: &[bool], way: Way, end: u32, levels: &mut [u32])
    requires keep { length keep.now ≡ length system.now.rules }
    requires found { AreFound system.now.events (rules_along way system.now.rules) keep.now end levels.old }
    ensures { AreLevels system.now.events (rules_along way system.now.rules) keep.now end levels.new }
{
    'passes: while lower(system, keep, way, end, levels) {}
}

/// Lowers levels along kept rules, and answers whether it lowered one.
fn lower(system: &System, keep: &[bool], way: Way, end: u32, levels: &mut [u32]) -> bool
    requires keep { length keep.now ≡ length system.now.rules }
    requires count { length levels.old ≡ system.now.events }
    requires reached { AreReached (rules_along way system.now.rules) keep.now end levels.old }
    ensures ends { EndsBelow system.now.events system.now.rules }
    ensures reached { AreReached (rules_along way system.now.rules) keep.now end levels.new }
    ensures sank { (event : ℕ) → level_of levels.new event ≤ level_of levels.old event }
    ensures fell { result ≡ true → sum levels.new < sum levels.old }
    ensures same { result ≡ false → levels.new ≡ levels.old }
    ensures settled { result ≡ false → AreSettled (rules_along way system.now.rules) keep.now levels.new (length system.now.rules) }
{
    let mut lowered = false;
    'rules: for number in 0..system.rules().len() {
        if keep[number] && lower_source(rule_along(system, way, number), levels) {
            lowered = true;
        }
    }
    lowered
}

/// Lowers the level of a rule's source to one above that of its target, and answers whether it did.
fn lower_source(rule: Rule, levels: &mut [u32]) -> bool
    requires source { rule.source < length levels.old }
    requires target { rule.target < length levels.old }
    ensures levels { levels.new ≡ lowered rule levels.old }
    ensures result { result ≡ nat_lt (level_of levels.old rule.target + 1) (level_of levels.old rule.source) }
{
    let there = levels[rule.target as usize];
    let here = levels[rule.source as usize];
    if there >= here || there + 1 == here {
        return false;
    }
    levels[rule.source as usize] = there + 1;
    true
}
