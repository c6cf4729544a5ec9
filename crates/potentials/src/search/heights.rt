//! Heights of places that rules raise, with the rule chosen into each place.

use crate::search::links::Link;
use crate::search::pending::Pending;
use crate::search::places::Places;
use crate::search::scale::Scale;
use std::alloc::{AllocError, Global};

/// For each place its height and the rule that is chosen into it: of those that raised the height the last.
#[derive(Drop)]
pub struct Heights {
    values: Vec<i64>,
    chosen: Vec<Option<Link>>,
}

impl Heights {
    /// The height 0 for each of so many places, and no chosen rule.
    pub fn zeros(alloc: Global, places: usize) -> Result<Heights, AllocError> {
        let values = vec![in alloc; 0i64; places]?;
        let chosen = vec![in alloc; None; places]?;
        Ok(Heights { values, chosen })
    }

    /// The height of each place.
    pub fn values(&self) -> &[i64] {
        &self.values
    }

    /// The height of a place.
    pub fn at(&self, place: u32) -> Option<i64> {
        self.values.get(place as usize).copied()
    }

    /// The rule that is chosen into a place.
    pub fn chosen(&self, place: u32) -> Option<Link> {
        self.chosen.get(place as usize).copied()?
    }

    /// Chooses a rule into a place.
    pub fn choose(&mut self, place: u32, link: Link) {
        if let Some(chosen) = self.chosen.get_mut(place as usize) {
            *chosen = Some(link);
        }
    }

    /// Gives a place a height.
    pub fn put(&mut self, place: u32, height: i64) {
        if let Some(slot) = self.values.get_mut(place as usize) {
            *slot = height;
        }
    }

    /// What the rule chosen into a place gives it.
    pub fn follow(&mut self, place: u32, scale: Scale) {
        if let Some(link) = self.chosen(place)
            && let Some(from) = self.at(link.place)
        {
            self.put(place, from.wrapping_add(scale.weight(link)));
        }
    }

    /// Raises a place to what a rule into it offers, if that is more, and answers whether it is.
    pub fn raise(&mut self, place: u32, link: Link, offer: i64) -> bool {
        match self.values.get_mut(place as usize) {
            Some(height) if offer > *height => *height = offer,
            _ => return false,
        }
        self.choose(place, link);
        true
    }

    /// Raises each place, one after the other, to the most that the rules into it offer. Makes the raised ones pending,
    /// and answers whether there is one.
    pub fn sweep(&mut self, places: &Places, scale: Scale, pending: &mut Pending) -> bool {
        let mut rose = false;
        'places: for place in 0..places.count() {
            if self.raise_to_most(place, places.rules_into().at(place), scale) {
                pending.add(place);
                rose = true;
            }
        }
        rose
    }

    /// Raises a place to the most that the rules into it offer, and answers whether it rose.
    fn raise_to_most(&mut self, place: u32, into: &[Link], scale: Scale) -> bool {
        let Some(mut most) = self.at(place) else {
            return false;
        };
        let mut best = None;
        'links: for link in into {
            if let Some(from) = self.values.get(link.place as usize) {
                let offer = from.wrapping_add(scale.weight(*link));
                if offer > most {
                    most = offer;
                    best = Some(*link);
                }
            }
        }
        match best {
            Some(link) => self.raise(place, link, most),
            None => false,
        }
    }

    /// Goes on from pending places, sweep by sweep, until none is left or so many rules are tried.
    /// Answers whether none is left.
    pub fn pass(
        &mut self,
        places: &Places,
        scale: Scale,
        pending: &mut Pending,
        most: usize,
    ) -> bool {
        let mut tried: usize = 0;
        'sweeps: for _ in 0..=most {
            if pending.is_empty() {
                return true;
            }
            if tried > most {
                break;
            }
            tried = tried.saturating_add(pending.words());
            tried = tried.saturating_add(self.pass_once(places, scale, pending));
        }
        false
    }

    /// Goes on from each pending place, in their order, and answers how many rules were tried.
    fn pass_once(&mut self, places: &Places, scale: Scale, pending: &mut Pending) -> usize {
        let mut tried: usize = 0;
        'words: for word in 0..pending.words() {
            'bits: for _ in 0..64u32 {
                let Some(place) = pending.take(word) else {
                    break;
                };
                tried = tried.saturating_add(self.go_on(place, places, scale, pending));
            }
        }
        tried
    }

    /// Raises the targets of the rules from a place, which are pending then, and answers how many rules were tried.
    fn go_on(&mut self, place: u32, places: &Places, scale: Scale, pending: &mut Pending) -> usize {
        let Some(from) = self.at(place) else {
            return 0;
        };
        let links = places.rules_out_of().at(place);
        'links: for link in links {
            let offer = from.wrapping_add(scale.weight(*link));
            if self.raise(link.place, Link { place, ..*link }, offer) {
                pending.add(link.place);
            }
        }
        links.len()
    }
}
