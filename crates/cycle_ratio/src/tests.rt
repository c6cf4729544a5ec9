//! The periods of worked and drawn systems, from several starts.
ghost use Rattle.std.specs.Prelude.{◌≡◌, ◌<◌, ◌≤◌, ℕ, true, IfOk, IfSome, All, length};
ghost use Rattle.rule_system.specs.Bounds.{IsSystem};
ghost use Rattle.rule_system.specs.Rules.{rule_at};
ghost use Rattle.rule_system.specs.Walks.{IsLive};
ghost use Rattle.rule_system.specs.FirstCycle.{kept_by};
ghost use Rattle.cycle_ratio.specs.Cycles.{HasCycle};

use crate::checking::is_short_cycle;
use crate::{greatest, greatest_from};
use first_cycle::first_cycle;
use rule_system::{MOST_DELAY, MOST_EVENTS, MOST_OFFSET, MOST_RULES, Rule, System, plain};
use std::alloc::{AllocError, Global};
use std::test::Fail;

/// Source, target, delay, offset.
type Row = (u32, u32, u32, u32);

/// The rules of some rows, if they are within the limits.
fn rules_of(alloc: Global, events: u32, rows: &[Row]) -> Result<Option<Vec<Rule>>, AllocError>
    ensures { IfOk result (λ found. IfSome found (λ rules. IsSystem events rules.items)) }
{
    if events > MOST_EVENTS || rows.len() > MOST_RULES {
        return Ok(None);
    }
    let mut rules = Vec::new(alloc);
    'rows: for (source, target, delay, offset) in rows {
        if *source >= events || *target >= events || *delay > MOST_DELAY || *offset > MOST_OFFSET {
            return Ok(None);
        }
        rules.push(Rule {
            source: *source,
            target: *target,
            delay: *delay,
            offset: *offset,
        })?;
    }
    Ok(Some(rules))
}

/// Flags that keep the rules of offset 0.
fn timeless(alloc: Global, rules: &[Rule]) -> Result<Vec<bool>, AllocError>
    ensures count { IfOk result (λ keep. length keep.items ≡ length rules.now) }
    ensures kept { IfOk result (λ keep. (n : ℕ) → n < length rules.now → (rule_at rules.now n).offset ≡ 0 → kept_by keep.items n ≡ true) }
{
    let mut keep = Vec::new(alloc);
    'rules: for rule in rules {
        keep.push(rule.offset == 0)?;
    }
    Ok(keep)
}

/// Whether every cycle has an offset.
fn is_live(alloc: Global, system: &System) -> Result<bool, AllocError>
    ensures { IfOk result (λ live. live ≡ true → IsLive system.now.rules) }
{
    let keep = timeless(alloc, system.rules())?;
    if let Some(dead) = first_cycle(alloc, system, &keep)? {
        let _ = dead;
        return Ok(false);
    }
    Ok(true)
}

/// Whether there is a cycle.
fn has_cycle(alloc: Global, system: &System) -> Result<bool, AllocError>
    ensures { IfOk result (λ some. some ≡ true → HasCycle system.now.rules) }
{
    let keep = vec![in alloc; true; system.rules().len()]?;
    let found = first_cycle(alloc, system, &keep)?;
    Ok(found.is_some())
}

/// The system of some rows, where it is live and has a cycle.
fn system_if_any(alloc: Global, events: u32, rows: &[Row]) -> Result<Option<System>, Fail>
    ensures live { IfOk result (λ found. IfSome found (λ system. IsLive system.rules)) }
    ensures cycle { IfOk result (λ found. IfSome found (λ system. HasCycle system.rules)) }
{
    let rules = rules_of(alloc, events, rows)?.ok_or("beyond the limits")?;
    let system = System::build(alloc, events, rules)?;
    let live = is_live(alloc, &system)?;
    let some = has_cycle(alloc, &system)?;
    Ok(if live && some { Some(system) } else { None })
}

/// The top and the bottom of the period of a live system with a cycle.
fn period_of(alloc: Global, events: u32, rows: &[Row]) -> Result<(u64, u64), Fail> {
    let system = system_if_any(alloc, events, rows)?.ok_or("no period")?;
    let found = greatest(alloc, &system)?;
    Ok((found.period.top(), found.period.bottom()))
}

/// The top and the bottom of the period of a live system with a cycle, from a start.
fn period_from(
    alloc: Global,
    events: u32,
    rows: &[Row],
    start: &[u32],
) -> Result<(u64, u64), Fail> {
    let system = system_if_any(alloc, events, rows)?.ok_or("no period")?;
    let found = greatest_from(alloc, &system, start)?;
    Ok((found.period.top(), found.period.bottom()))
}

/// Whether the period from a start is the one of the plain test.
fn is_right(alloc: Global, system: &System, start: &[u32]) -> Result<bool, AllocError>
    requires live { IsLive system.now.rules }
    requires cycle { HasCycle system.now.rules }
{
    let found = greatest_from(alloc, system, start)?;
    let top = found.period.top();
    let bottom = found.period.bottom();
    Ok(plain::is_period(top, bottom, system))
}

/// A ring of three inverters, by the offsets of two of its rules.
fn inverter_ring(first: u32, second: u32) -> [Row; 6] {
    [
        (1, 2, 12, 0),
        (0, 3, 10, 0),
        (3, 4, 12, 0),
        (2, 5, 10, 0),
        (5, 0, 12, first),
        (4, 1, 10, second),
    ]
}

#[test]
fn inverter_rings(rt: HostRuntime) -> Result<(), Fail> {
    let table = [(1, 0, 66, 1), (1, 1, 33, 1), (2, 2, 33, 2)];
    for (first, second, top, bottom) in table {
        assert_eq!(rt;
            period_of(rt.alloc(), 6, &inverter_ring(first, second))?,
            (top, bottom)
        );
    }
    Ok(())
}

#[test]
fn ring_without_delays(rt: HostRuntime) -> Result<(), Fail> {
    let rows = [
        (1, 2, 0, 0),
        (0, 3, 0, 0),
        (3, 4, 0, 0),
        (2, 5, 0, 0),
        (5, 0, 0, 1),
        (4, 1, 0, 0),
    ];
    assert_eq!(rt; period_of(rt.alloc(), 6, &rows)?, (0, 1));
    Ok(())
}

/// A Muller ring of three stages.
fn muller_ring() -> [Row; 18] {
    [
        (8, 0, 20, 0),
        (9, 1, 18, 1),
        (6, 0, 20, 0),
        (7, 1, 18, 0),
        (1, 2, 12, 0),
        (0, 3, 10, 0),
        (0, 4, 20, 1),
        (1, 5, 18, 0),
        (10, 4, 20, 1),
        (11, 5, 18, 0),
        (5, 6, 12, 0),
        (4, 7, 10, 0),
        (4, 8, 20, 0),
        (5, 9, 18, 0),
        (2, 8, 20, 0),
        (3, 9, 18, 0),
        (9, 10, 12, 0),
        (8, 11, 10, 0),
    ]
}

#[test]
fn muller_ring_of_three_stages(rt: HostRuntime) -> Result<(), Fail> {
    assert_eq!(rt; period_of(rt.alloc(), 12, &muller_ring())?, (180, 1));
    Ok(())
}

/// The start: none; the cycle of the period; a lesser cycle, once and three times round; no walk; a rule past the end; a walk
/// of offset 0, which is not closed; a closed walk that is too long.
#[test]
fn muller_ring_from_starts(rt: HostRuntime) -> Result<(), Fail> {
    let starts: [&[u32]; 8] = [
        &[],
        &[5, 15, 16, 8, 11, 3, 4, 14, 17, 9, 10, 2],
        &[6, 12, 0],
        &[6, 12, 0, 6, 12, 0, 6, 12, 0],
        &[0, 0],
        &[18],
        &[5, 15, 16],
        &[6, 12, 0, 5, 15, 16, 8, 11, 3, 4, 14, 17, 9, 10, 2],
    ];
    for start in starts {
        assert_eq!(rt;
            period_from(rt.alloc(), 12, &muller_ring(), start)?,
            (180, 1)
        );
    }
    Ok(())
}

#[test]
fn two_ways_round(rt: HostRuntime) -> Result<(), Fail> {
    let rows = [
        (1, 2, 12, 0),
        (0, 3, 10, 0),
        (3, 4, 12, 0),
        (2, 5, 10, 0),
        (3, 6, 12, 0),
        (2, 7, 10, 0),
        (5, 0, 12, 1),
        (4, 1, 10, 0),
        (7, 0, 12, 1),
        (6, 1, 10, 0),
    ];
    assert_eq!(rt; period_of(rt.alloc(), 8, &rows)?, (66, 1));
    Ok(())
}

#[test]
fn one_net(rt: HostRuntime) -> Result<(), Fail> {
    let rows = [(0, 0, 7, 1), (1, 0, 7, 1), (0, 1, 5, 0), (1, 1, 5, 1)];
    assert_eq!(rt; period_of(rt.alloc(), 2, &rows)?, (12, 1));
    Ok(())
}

/// Numbers that look drawn at random (a linear congruence of 64 bits).
#[derive(Drop)]
struct Draw {
    state: u64,
}

impl Draw {
    fn below(&mut self, bound: u32) -> u32 {
        self.state = self
            .state
            .wrapping_mul(6_364_136_223_846_793_005)
            .wrapping_add(1_442_695_040_888_963_407);
        if bound == 0 {
            return 0;
        }
        ((self.state >> 33) % u64::from(bound)) as u32
    }
}

/// Some rules between so many events.
fn drawn_rows(alloc: Global, draw: &mut Draw, events: u32) -> Result<Vec<Row>, AllocError> {
    let mut rows = Vec::new(alloc);
    for _ in 0..5u32 {
        let source = draw.below(events);
        let target = draw.below(events);
        let delay = draw.below(30);
        let offset = draw.below(3);
        rows.push((source, target, delay, offset))?;
    }
    Ok(rows)
}

/// A few numbers of the rules, and of one that there is not.
fn drawn_start(alloc: Global, draw: &mut Draw) -> Result<Vec<u32>, AllocError> {
    let mut start = Vec::new(alloc);
    for _ in 0..draw.below(4) {
        start.push(draw.below(6))?;
    }
    Ok(start)
}

/// How many of eight drawn starts are cycles, or none where the period from one of them is wrong.
fn cycles_of_starts(
    alloc: Global,
    system: &System,
    draw: &mut Draw,
) -> Result<Option<u32>, AllocError>
    requires live { IsLive system.now.rules }
    requires cycle { HasCycle system.now.rules }
{
    let mut cycles = 0u32;
    for _ in 0..8u32 {
        let start = drawn_start(alloc, draw)?;
        if !is_right(alloc, system, &start)? {
            return Ok(None);
        }
        if is_short_cycle(system, &start) {
            cycles = cycles.saturating_add(1);
        }
    }
    Ok(Some(cycles))
}

#[test]
fn drawn_systems_from_drawn_starts(rt: HostRuntime) -> Result<(), Fail> {
    let mut draw = Draw { state: 7 };
    let mut judged = 0u32;
    let mut cycles = 0u32;
    for _ in 0..120u32 {
        let events = draw.below(4).saturating_add(1);
        let rows = drawn_rows(rt.alloc(), &mut draw, events)?;
        if let Some(system) = system_if_any(rt.alloc(), events, &rows)? {
            let more = cycles_of_starts(rt.alloc(), &system, &mut draw)?;
            cycles = cycles.saturating_add(more.ok_or("a wrong period")?);
            judged = judged.saturating_add(1);
        }
    }
    assert!(rt; judged > 20, "{judged} of 120 systems have a period");
    assert!(rt; cycles > 20, "{cycles} starts are cycles");
    Ok(())
}
