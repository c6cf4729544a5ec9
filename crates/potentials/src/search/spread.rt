//! Raises that spread over a system, the greatest first.

use crate::search::heights::Heights;
use crate::search::links::Link;
use crate::search::places::Places;
use crate::search::scale::Scale;
use std::alloc::{AllocError, Global};
use std::collections::BinaryHeap;

/// A place whose height rose, and by how much.
#[derive(Clone, Copy, PartialEq, Eq, PartialOrd, Ord)]
struct Raise {
    gain: i64,
    place: u32,
}

/// The heights before, the places that were taken, and those whose turn is to come.
#[derive(Drop)]
struct Spread {
    before: Vec<i64>,
    is_taken: Vec<bool>,
    raises: BinaryHeap<Raise>,
    is_left: bool,
}

impl Heights {
    /// Tries all rules, and spreads the raises, the greatest first, from each place at most once. Answers whether no rule
    /// is left that would raise a height.
    ///
    /// Along a rule that raised nothing before, the raise of its target is at most that of its source, so each place is
    /// taken at its last height if all rules are such ones but the first of each walk (Dinitz and Itzhak 2017). Its cost is
    /// that of one search by Dijkstra, whatever the order of the events.
    pub fn spread(
        &mut self,
        alloc: Global,
        places: &Places,
        scale: Scale,
    ) -> Result<bool, AllocError> {
        let mut spread = Spread {
            before: self.values().to_vec(alloc)?,
            is_taken: vec![in alloc; false; places.count() as usize]?,
            raises: BinaryHeap::new(alloc),
            is_left: false,
        };
        'places: for place in 0..places.count() {
            self.raise_first(place, places.rules_into().at(place), scale, &mut spread)?;
        }
        'raises: for _ in 0..=places.rules_into().all().len().saturating_mul(2) {
            let Some(raise) = spread.raises.pop() else {
                break;
            };
            if take(raise, &mut spread.is_taken) {
                self.spread_from(raise.place, places, scale, &mut spread)?;
            }
        }
        Ok(!spread.is_left)
    }

    /// Raises a place to the most that the rules into it offer by the heights before.
    fn raise_first(
        &mut self,
        place: u32,
        into: &[Link],
        scale: Scale,
        spread: &mut Spread,
    ) -> Result<(), AllocError> {
        let mut rose = false;
        'links: for link in into {
            if let Some(from) = spread.before.get(link.place as usize) {
                let offer = from.wrapping_add(scale.weight(*link));
                if self.raise(place, *link, offer) {
                    rose = true;
                }
            }
        }
        if rose {
            self.add_raise(place, spread)?;
        }
        Ok(())
    }

    /// Lets a place have its turn.
    fn add_raise(&self, place: u32, spread: &mut Spread) -> Result<(), AllocError> {
        if let Some(before) = spread.before.get(place as usize)
            && let Some(now) = self.at(place)
        {
            let gain = now.wrapping_sub(*before);
            spread.raises.push(Raise { gain, place })?;
        }
        Ok(())
    }

    /// Raises the targets of the rules from a place.
    fn spread_from(
        &mut self,
        place: u32,
        places: &Places,
        scale: Scale,
        spread: &mut Spread,
    ) -> Result<(), AllocError> {
        let Some(from) = self.at(place) else {
            return Ok(());
        };
        'links: for link in places.rules_out_of().at(place) {
            let offer = from.wrapping_add(scale.weight(*link));
            if self.raise(link.place, Link { place, ..*link }, offer) {
                if spread.is_taken.get(link.place as usize) == Some(&false) {
                    self.add_raise(link.place, spread)?;
                } else {
                    spread.is_left = true;
                }
            }
        }
        Ok(())
    }
}

/// Takes a place's turn, and answers whether it had none before.
fn take(raise: Raise, is_taken: &mut [bool]) -> bool {
    match is_taken.get_mut(raise.place as usize) {
        Some(flag) if !*flag => {
            *flag = true;
            true
        }
        _ => false,
    }
}
