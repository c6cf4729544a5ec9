//! What each rule loses against heights.

use crate::search::heights::Heights;
use crate::search::pending::Pending;
use crate::search::places::Places;
use crate::search::scale::Scale;
use cyc_num::Ratio;
use rule_system::System;
use std::alloc::{AllocError, Global};

/// How many phases a search for heights makes at most.
const PHASES: u32 = 64;

/// A rule from a place: the place it leads to, its number, and what it loses.
#[derive(Clone, Copy)]
pub struct Step {
    pub place: u32,
    pub rule: u32,
    pub loss: i64,
}

/// The rules of a system by the places of their sources, with what each loses against heights: by how much its target is
/// higher than its source and its weight lead to, or 0. Where the heights rise along each rule by at least its weight, the
/// walks of least loss are the heaviest ones (Johnson 1977).
#[derive(Drop)]
pub struct Reduced {
    places: Vec<u32>,
    begins: Vec<u32>,
    steps: Vec<Step>,
}

impl Reduced {
    /// The losses of a system's rules at a ratio, against heights that are looked for here.
    pub fn at(alloc: Global, system: &System, ratio: Ratio) -> Result<Reduced, AllocError> {
        let places = Places::of(alloc, system)?;
        Reduced::between(alloc, &places, ratio)
    }

    /// The same of the rules between places.
    pub fn between(alloc: Global, places: &Places, ratio: Ratio) -> Result<Reduced, AllocError> {
        let scale = Scale::of(ratio);
        let count = places.count() as usize;
        let mut heights = Heights::zeros(alloc, count)?;
        let mut pending = Pending::none_of(alloc, count)?;
        heights.sweep(places, scale, &mut pending);
        let most = places.rules_into().all().len().saturating_mul(2);
        if !heights.pass(places, scale, &mut pending, most) {
            'phases: for _ in 0..PHASES {
                if heights.spread(alloc, places, scale)? {
                    break;
                }
            }
        }
        Reduced::of(alloc, places, scale, heights.values())
    }

    /// The losses of the rules between places against heights of the places.
    pub fn of(
        alloc: Global,
        places: &Places,
        scale: Scale,
        heights: &[i64],
    ) -> Result<Reduced, AllocError> {
        let mut steps = Vec::with_capacity(alloc, places.rules_out_of().all().len())?;
        'places: for place in 0..places.count() {
            append_from(places, place, scale, heights, &mut steps)?;
        }
        Ok(Reduced {
            places: places.places().to_vec(alloc)?,
            begins: places.rules_out_of().begins().to_vec(alloc)?,
            steps,
        })
    }

    /// How many places there are.
    pub fn count(&self) -> usize {
        self.places.len()
    }

    /// How many rules there are.
    pub fn rules(&self) -> usize {
        self.steps.len()
    }

    /// The place of an event.
    pub fn place(&self, event: u32) -> Option<u32> {
        self.places.get(event as usize).copied()
    }

    /// The rules from a place.
    pub fn from(&self, place: u32) -> &[Step] {
        let Some(begin) = self.begins.get(place as usize) else {
            return &[];
        };
        let Some(end) = self.begins.get(place as usize + 1) else {
            return &[];
        };
        self.steps
            .get(*begin as usize..*end as usize)
            .unwrap_or(&[])
    }
}

/// Appends the rules from a place.
fn append_from(
    places: &Places,
    place: u32,
    scale: Scale,
    heights: &[i64],
    steps: &mut Vec<Step>,
) -> Result<(), AllocError> {
    let from = heights.get(place as usize).copied().unwrap_or(0);
    'links: for link in places.rules_out_of().at(place) {
        let to = heights.get(link.place as usize).copied().unwrap_or(0);
        let offer = from.wrapping_add(scale.weight(*link));
        steps.push(Step {
            place: link.place,
            rule: link.rule,
            loss: to.wrapping_sub(offer).max(0),
        })?;
    }
    Ok(())
}
