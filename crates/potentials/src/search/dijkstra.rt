//! Dijkstra's search for walks of least loss.

use crate::search::reduced::{Reduced, Step};
use std::alloc::{AllocError, Global};
use std::cmp::Reverse;
use std::collections::BinaryHeap;

/// A place to go on from, and what the walk to it loses.
#[derive(Clone, Copy, PartialEq, Eq, PartialOrd, Ord)]
struct Turn {
    loss: i64,
    place: u32,
}

/// What the search knows of a place: the least loss of a walk so far, its last rule, and whether that is final.
#[derive(Clone, Copy)]
struct Known {
    loss: i64,
    rule: u32,
    is_final: bool,
}

/// What the search knows of the places, whose turn is to come at a greater loss, and at the present one.
#[derive(Drop)]
struct Walks {
    known: Vec<Known>,
    later: BinaryHeap<Reverse<Turn>>,
    now: Vec<u32>,
}

impl Reduced {
    /// The last rules of walks of least loss from the root to the other events, each after the rule into its source
    /// (Dijkstra 1959). Events at the present loss wait in a plain list.
    pub fn rules_from(&self, alloc: Global, root: u32) -> Result<Vec<u32>, AllocError> {
        let mut order = Vec::with_capacity(alloc, self.count())?;
        let Some(start) = self.place(root) else {
            return Ok(order);
        };
        let unknown = Known {
            loss: i64::MAX,
            rule: 0,
            is_final: false,
        };
        let mut walks = Walks {
            known: vec![in alloc; unknown; self.count()]?,
            later: BinaryHeap::new(alloc),
            now: Vec::with_capacity(alloc, self.count())?,
        };
        settle(&mut walks.known, start);
        self.go_on(start, 0, &mut walks)?;
        self.take_now(0, &mut walks, &mut order)?;
        'turns: for _ in 0..=self.rules() {
            let Some(Reverse(turn)) = walks.later.pop() else {
                break;
            };
            if settle(&mut walks.known, turn.place) {
                walks.now.push(turn.place)?;
                self.take_now(turn.loss, &mut walks, &mut order)?;
            }
        }
        Ok(order)
    }

    /// Goes on from each place at the present loss, and appends the rules into them.
    fn take_now(
        &self,
        loss: i64,
        walks: &mut Walks,
        order: &mut Vec<u32>,
    ) -> Result<(), AllocError> {
        'places: for _ in 0..self.count() {
            let Some(place) = walks.now.pop() else {
                break;
            };
            if let Some(known) = walks.known.get(place as usize) {
                order.push(known.rule)?;
            }
            self.go_on(place, loss, walks)?;
        }
        Ok(())
    }

    /// Goes on by the rules from a place.
    fn go_on(&self, place: u32, loss: i64, walks: &mut Walks) -> Result<(), AllocError> {
        'steps: for step in self.from(place) {
            if let Some(known) = walks.known.get_mut(step.place as usize)
                && improve(known, step, loss)
            {
                if step.loss == 0 {
                    walks.now.push(step.place)?;
                } else {
                    walks.later.push(Reverse(Turn {
                        loss: loss.saturating_add(step.loss),
                        place: step.place,
                    }))?;
                }
            }
        }
        Ok(())
    }
}

/// Makes final what is known of a place, and answers whether it wasn't yet.
fn settle(known: &mut [Known], place: u32) -> bool {
    match known.get_mut(place as usize) {
        Some(here) if !here.is_final => {
            here.is_final = true;
            true
        }
        _ => false,
    }
}

/// Keeps a walk of less loss, and answers whether it is one.
fn improve(known: &mut Known, step: &Step, loss: i64) -> bool {
    let offer = loss.saturating_add(step.loss);
    if known.is_final || offer >= known.loss && step.loss > 0 {
        return false;
    }
    known.loss = offer;
    known.rule = step.rule;
    known.is_final = step.loss == 0;
    true
}
