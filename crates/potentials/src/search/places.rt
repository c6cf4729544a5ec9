//! A system's events at places in an order in which rules of offset 0 go forward, with the rules by place.

use crate::search::links::{Link, Links};
use rule_system::System;
use rule_system::orders::order;
use std::alloc::{AllocError, Global};

/// The place of each event, and the rules into and out of each place.
#[derive(Drop)]
pub struct Places {
    places: Vec<u32>,
    into: Links,
    out_of: Links,
}

impl Places {
    /// The places of a system. Where a cycle of rules of offset 0 stands, the events keep their numbers.
    pub fn of(alloc: Global, system: &System) -> Result<Places, AllocError> {
        let order = match order(alloc, system)? {
            Some(order) => order,
            None => (0..system.events()).collect(alloc)?,
        };
        let places = places_of(alloc, &order)?;
        let into = links_into(alloc, system, &places)?;
        let out_of = links_out_of(alloc, system.events(), &into)?;
        Ok(Places {
            places,
            into,
            out_of,
        })
    }

    /// How many places there are.
    pub fn count(&self) -> u32 {
        u32::try_from(self.places.len()).unwrap_or(0)
    }

    /// The place of each event.
    pub fn places(&self) -> &[u32] {
        &self.places
    }

    /// The rules into places.
    pub fn rules_into(&self) -> &Links {
        &self.into
    }

    /// The rules out of places.
    pub fn rules_out_of(&self) -> &Links {
        &self.out_of
    }
}

/// The place of each event of an order.
fn places_of(alloc: Global, order: &[u32]) -> Result<Vec<u32>, AllocError> {
    let mut places = vec![in alloc; 0u32; order.len()]?;
    'places: for (place, event) in order.iter().enumerate() {
        if let Some(slot) = places.get_mut(*event as usize) {
            *slot = u32::try_from(place).unwrap_or(0);
        }
    }
    Ok(places)
}

/// The rules by the places of their targets.
fn links_into(alloc: Global, system: &System, places: &[u32]) -> Result<Links, AllocError> {
    let mut counts = vec![in alloc; 0u32; places.len()]?;
    'rules: for rule in system.rules() {
        count_one(&mut counts, place_of(places, rule.target));
    }
    let mut links = Links::with_counts(alloc, &counts)?;
    let mut next = vec![in alloc; 0u32; places.len()]?;
    'links: for (number, rule) in system.rules().iter().enumerate() {
        let link = Link {
            place: place_of(places, rule.source),
            rule: number as u32,
            delay: rule.delay,
            offset: rule.offset,
        };
        links.put(place_of(places, rule.target), link, &mut next);
    }
    Ok(links)
}

/// The rules by the places of their sources, in the order of their targets' places.
fn links_out_of(alloc: Global, count: u32, into: &Links) -> Result<Links, AllocError> {
    let mut counts = vec![in alloc; 0u32; count as usize]?;
    'rules: for link in into.all() {
        count_one(&mut counts, link.place);
    }
    let mut links = Links::with_counts(alloc, &counts)?;
    let mut next = vec![in alloc; 0u32; count as usize]?;
    'places: for place in 0..count {
        turn_round(into, place, &mut links, &mut next);
    }
    Ok(links)
}

/// Writes each rule into a place as a link of its source.
fn turn_round(into: &Links, place: u32, links: &mut Links, next: &mut [u32]) {
    'links: for link in into.at(place) {
        links.put(link.place, Link { place, ..*link }, next);
    }
}

/// The place of an event.
fn place_of(places: &[u32], event: u32) -> u32 {
    places.get(event as usize).copied().unwrap_or(0)
}

/// Counts one more at a place.
fn count_one(counts: &mut [u32], place: u32) {
    if let Some(count) = counts.get_mut(place as usize) {
        *count = count.saturating_add(1);
    }
}
