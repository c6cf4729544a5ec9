//! A choice of one rule into each place, and the best of the cycles that it closes.

use cyc_num::Ratio;
use potentials::search::{Heights, Link, Places};
use rule_system::System;
use std::alloc::{AllocError, Global};
use std::cmp::Ordering;

/// A cycle of chosen rules: a place on it, and its ratio.
#[derive(Clone, Copy)]
pub struct Closing {
    pub place: u32,
    pub ratio: Ratio,
}

/// Chooses a rule of the greatest delay into each place. Answers whether there is one into each.
pub fn choose_longest(places: &Places, heights: &mut Heights) -> bool {
    let mut each = true;
    'places: for place in 0..places.count() {
        match longest(places.rules_into().at(place)) {
            Some(link) => heights.choose(place, link),
            None => each = false,
        }
    }
    each
}

/// Chooses the rules of a cycle, each into the place of its target.
pub fn choose_along(system: &System, places: &Places, cycle: &[u32], heights: &mut Heights) {
    'numbers: for number in cycle {
        if let Some(rule) = system.rules().get(*number as usize)
            && let Some(target) = places.places().get(rule.target as usize)
            && let Some(source) = places.places().get(rule.source as usize)
        {
            let link = Link {
                place: *source,
                rule: *number,
                delay: rule.delay,
                offset: rule.offset,
            };
            heights.choose(*target, link);
        }
    }
}

/// The first of the rules of the greatest delay.
fn longest(links: &[Link]) -> Option<Link> {
    let mut best: Option<Link> = None;
    'links: for link in links {
        best = Some(longer(best, *link));
    }
    best
}

/// Of two rules the one of the greater delay, or the first.
fn longer(first: Option<Link>, second: Link) -> Link {
    match first {
        Some(link) if link.delay >= second.delay => link,
        _ => second,
    }
}

/// The first of the cycles of the greatest ratio that the chosen rules close.
pub fn best_closing(
    alloc: Global,
    places: &Places,
    heights: &Heights,
) -> Result<Option<Closing>, AllocError> {
    let mut marks = vec![in alloc; u32::MAX; places.count() as usize]?;
    let mut best: Option<Closing> = None;
    'starts: for start in 0..places.count() {
        let Some(place) = meeting(heights, &mut marks, start) else {
            continue;
        };
        let Some(ratio) = ratio_through(heights, place, places.count()) else {
            continue;
        };
        best = Some(better(best, Closing { place, ratio }));
    }
    Ok(best)
}

/// Of two cycles the one of the greater ratio, or the first.
fn better(first: Option<Closing>, second: Closing) -> Closing {
    match first {
        Some(best) if second.ratio.order(&best.ratio) != Ordering::Greater => best,
        _ => second,
    }
}

/// The place at which the way back from a start by chosen rules meets itself. Marks the places on the way with the start.
fn meeting(heights: &Heights, marks: &mut [u32], start: u32) -> Option<u32> {
    let mut at = start;
    'steps: for _ in 0..=marks.len() {
        let mark = marks.get_mut(at as usize)?;
        if *mark != u32::MAX {
            return if *mark == start { Some(at) } else { None };
        }
        *mark = start;
        at = heights.chosen(at)?.place;
    }
    None
}

/// The ratio of the cycle that the chosen rules close at a place.
fn ratio_through(heights: &Heights, place: u32, most: u32) -> Option<Ratio> {
    let mut delay: u64 = 0;
    let mut offset: u64 = 0;
    let mut at = place;
    'steps: for _ in 0..most {
        let link = heights.chosen(at)?;
        delay = delay.saturating_add(link.delay as u64);
        offset = offset.saturating_add(link.offset as u64);
        at = link.place;
        if at == place {
            break;
        }
    }
    if at != place || offset == 0 {
        return None;
    }
    Some(Ratio::of(delay, offset))
}
