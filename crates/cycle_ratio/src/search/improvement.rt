//! Policy iteration for the greatest ratio.

ghost use Rattle.std.specs.Prelude.{◌≤◌};

use crate::search::cycles::cycle_through;
use crate::search::evaluation::evaluate;
use crate::search::goals::Goals;
use crate::search::policy::{best_closing, choose_along, choose_longest};
use cyc_num::Ratio;
use potentials::search::{Heights, Pending, Places, Scale};
use rule_system::System;
use std::alloc::{AllocError, Global};

/// How many rules the search tries, about, before it gives up: a matter of seconds.
const MOST_TRIED: usize = 1 << 29;

/// How often the best ratio rises by rounds of one sweep alone.
const RISES_BY_SWEEPS: u32 = 16;

/// A cycle, and places with heights, which may show that the cycle has the greatest ratio.
#[derive(Drop)]
pub struct Proposal {
    /// Rule numbers.
    pub cycle: Vec<u32>,
    /// The events at their places.
    pub places: Places,
    /// The heights, at the ratio of the cycle.
    pub heights: Heights,
}

/// Proposes a cycle of the greatest ratio, with heights that no rule raises at that ratio.
///
/// Improves a choice of one rule into each event (Howard 1960; for cycles Cochet-Terrasson and others 1998). In each round
/// the best cycle that the choice closes gives the ratio, if it is above the last one's. The choice is evaluated back from
/// that cycle, and then each event, in an order in which rules of offset 0 go forward, follows the rule that offers most.
/// Where the ratio stands, only events whose height moved are tried again: first in the same order, for about twice as many
/// rules as there are, and in later rounds those first that rose most. A few rounds as a rule, each in time linear in the
/// rules, or that of one search by Dijkstra.
///
/// Where the best ratio rises again and again by little, each round goes on from the events that rose most; where it still
/// does, ratios above it are tested, and the span between the best one and one that no cycle exceeds is halved (Lawler 1976).
/// The search ends when about a fixed number of rules were tried.
///
/// With a ratio the start is a cycle of it: its rules are chosen from the beginning, and better cycles are looked for.
pub fn propose(
    alloc: Global,
    system: &System,
    start: &[u32],
    ratio: Option<Ratio>,
) -> Result<Proposal, AllocError> {
    let places = Places::of(alloc, system)?;
    let mut heights = Heights::zeros(alloc, places.count() as usize)?;
    let mut cycle = Vec::new(alloc);
    let mut goals = Goals::none();
    let each = choose_longest(&places, &mut heights);
    if let Some(ratio) = ratio {
        choose_along(system, &places, start, &mut heights);
        cycle.extend_from_slice(start)?;
        goals.rise(ratio);
    }
    if each {
        improve(alloc, &places, &mut heights, goals, &mut cycle)?;
    }
    Ok(Proposal {
        cycle,
        places,
        heights,
    })
}

/// Improves the choice until no rule raises a height at the ratio of the best cycle that it ever closed, and keeps that cycle.
fn improve(
    alloc: Global,
    places: &Places,
    heights: &mut Heights,
    mut goals: Goals,
    cycle: &mut Vec<u32>,
) -> Result<(), AllocError> {
    let mut pending = Pending::none_of(alloc, places.count() as usize)?;
    let mut stood: u32 = 0;
    'rounds: for _ in 0..MOST_TRIED / cost_of_round(places) {
        let Some(closing) = best_closing(alloc, places, heights)? else {
            break;
        };
        stood = stood.saturating_add(1);
        if goals.is_below(closing.ratio) {
            *cycle = cycle_through(alloc, heights, closing.place)?;
            if goals.rise(closing.ratio) {
                stood = 0;
            }
        }
        let scale = Scale::of(goals.goal());
        evaluate(alloc, places, scale, closing.place, heights)?;
        let way = way_on(goals.rises(), stood);
        if is_settled(alloc, places, scale, heights, &mut pending, way)? {
            if goals.is_at_best() {
                break;
            }
            goals.lower();
            stood = 0;
        }
    }
    Ok(())
}

/// How a round goes on from the places whose height moved in its sweep.
#[derive(Clone, Copy)]
enum Way {
    NoFurther,
    InOrder,
    GreatestFirst,
}

/// How a round goes on, by how often the best ratio rose, and for how many rounds the one that is tested stood.
fn way_on(rises: u32, stood: u32) -> Way {
    match stood {
        0 if rises <= RISES_BY_SWEEPS => Way::NoFurther,
        1 if rises <= RISES_BY_SWEEPS => Way::InOrder,
        _ => Way::GreatestFirst,
    }
}

/// About how many rules a round tries, where raises spread the greatest first, and at least 1.
fn cost_of_round(places: &Places) -> usize
    ensures { 1 ≤ result }
{
    places
        .rules_into()
        .all()
        .len()
        .saturating_mul(8)
        .saturating_add(1)
}

/// Lets each place follow the rule that offers most, and goes on from those that moved.
/// Answers whether no rule raises a height any more.
fn is_settled(
    alloc: Global,
    places: &Places,
    scale: Scale,
    heights: &mut Heights,
    pending: &mut Pending,
    way: Way,
) -> Result<bool, AllocError> {
    pending.clear();
    if !heights.sweep(places, scale, pending) {
        return Ok(true);
    }
    match way {
        Way::NoFurther => Ok(false),
        Way::InOrder => {
            let most = places.rules_into().all().len().saturating_mul(2);
            Ok(heights.pass(places, scale, pending, most))
        }
        Way::GreatestFirst => heights.spread(alloc, places, scale),
    }
}

/// The heights by event.
pub fn numbers_of(
    alloc: Global,
    places: &Places,
    heights: &Heights,
) -> Result<Vec<i64>, AllocError> {
    let mut numbers = Vec::with_capacity(alloc, places.places().len())?;
    'events: for place in places.places() {
        numbers.push(heights.at(*place).unwrap_or(0))?;
    }
    Ok(numbers)
}
