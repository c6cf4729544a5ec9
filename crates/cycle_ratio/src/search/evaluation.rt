//! The heights that chosen rules give, from one of their cycles on.

use potentials::search::{Heights, Link, Places, Scale};
use std::alloc::{AllocError, Global};

/// What an evaluation knows of a place: whether its height is made, or its way back is gone, or leads elsewhere.
#[derive(Clone, Copy, PartialEq, Eq)]
enum Mark {
    Unseen,
    OnWay,
    Made,
    Astray,
}

/// An evaluation: what is known of each place, and the ways that are gone.
#[derive(Drop)]
struct Evaluation {
    marks: Vec<Mark>,
    way: Vec<u32>,
    made: u32,
}

/// Gives each place the height that chosen rules lead to from a start, which gets 0. A place whose chosen rules lead back
/// to another cycle first gets another rule: the best from a place with a height, in the order of the places, and then,
/// breadth first, any.
pub fn evaluate(
    alloc: Global,
    places: &Places,
    scale: Scale,
    start: u32,
    heights: &mut Heights,
) -> Result<(), AllocError> {
    let mut evaluation = Evaluation {
        marks: vec![in alloc; Mark::Unseen; places.count() as usize]?,
        way: Vec::with_capacity(alloc, places.count() as usize)?,
        made: 1,
    };
    evaluation.mark(start, Mark::Made);
    heights.put(start, 0);
    'places: for place in 0..places.count() {
        let end = evaluation.go_back(place, heights)?;
        evaluation.return_on_way(end, scale, heights);
    }
    if evaluation.made < places.count() {
        evaluation.attach_in_order(places, scale, heights);
        evaluation.attach_by_breadth(places, scale, heights)?;
    }
    Ok(())
}

impl Evaluation {
    /// What is known of a place.
    fn at(&self, place: u32) -> Mark {
        self.marks
            .get(place as usize)
            .copied()
            .unwrap_or(Mark::Astray)
    }

    /// Notes what is known of a place.
    fn mark(&mut self, place: u32, mark: Mark) {
        if let Some(slot) = self.marks.get_mut(place as usize) {
            *slot = mark;
        }
    }

    /// Goes back from a place by chosen rules over unseen places, and answers what is known of the place where that ends.
    fn go_back(&mut self, place: u32, heights: &Heights) -> Result<Mark, AllocError> {
        let mut at = place;
        'steps: for _ in 0..=self.marks.len() {
            let mark = self.at(at);
            if mark != Mark::Unseen {
                return Ok(mark);
            }
            self.mark(at, Mark::OnWay);
            self.way.push(at)?;
            let Some(link) = heights.chosen(at) else {
                break;
            };
            at = link.place;
        }
        Ok(Mark::Astray)
    }

    /// Returns on the way that was gone, and makes the heights on it, if it ended where one is made.
    fn return_on_way(&mut self, end: Mark, scale: Scale, heights: &mut Heights) {
        let is_made = end == Mark::Made;
        'steps: for _ in 0..=self.marks.len() {
            let Some(place) = self.way.pop() else {
                break;
            };
            if is_made {
                heights.follow(place, scale);
                self.mark(place, Mark::Made);
                self.made = self.made.saturating_add(1);
            } else {
                self.mark(place, Mark::Astray);
            }
        }
    }

    /// Lets each place that went astray follow the best rule from a place with a height, if there is one.
    fn attach_in_order(&mut self, places: &Places, scale: Scale, heights: &mut Heights) {
        'places: for place in 0..places.count() {
            if self.at(place) == Mark::Astray
                && let Some(link) = self.best_into(places.rules_into().at(place), scale, heights)
            {
                self.attach(place, link, scale, heights);
            }
        }
    }

    /// The rule from a place with a height that offers most.
    fn best_into(&self, links: &[Link], scale: Scale, heights: &Heights) -> Option<Link> {
        let mut most = i64::MIN;
        let mut best = None;
        'links: for link in links {
            if self.at(link.place) == Mark::Made
                && let Some(from) = heights.at(link.place)
            {
                let offer = from.wrapping_add(scale.weight(*link));
                if offer > most {
                    most = offer;
                    best = Some(*link);
                }
            }
        }
        best
    }

    /// Lets a place follow a rule.
    fn attach(&mut self, place: u32, link: Link, scale: Scale, heights: &mut Heights) {
        heights.choose(place, link);
        heights.follow(place, scale);
        self.mark(place, Mark::Made);
        self.made = self.made.saturating_add(1);
    }

    /// Lets the places that are still astray follow rules from places with a height, breadth first.
    fn attach_by_breadth(
        &mut self,
        places: &Places,
        scale: Scale,
        heights: &mut Heights,
    ) -> Result<(), AllocError> {
        if self.made >= places.count() {
            return Ok(());
        }
        self.way.clear();
        'made: for place in 0..places.count() {
            if self.at(place) == Mark::Made {
                self.way.push(place)?;
            }
        }
        'turns: for turn in 0..places.count() {
            let Some(place) = self.way.get(turn as usize).copied() else {
                break;
            };
            self.attach_from(place, places, scale, heights)?;
        }
        Ok(())
    }

    /// Lets the places astray that rules from a place lead to follow these.
    fn attach_from(
        &mut self,
        place: u32,
        places: &Places,
        scale: Scale,
        heights: &mut Heights,
    ) -> Result<(), AllocError> {
        'links: for link in places.rules_out_of().at(place) {
            if self.at(link.place) == Mark::Astray {
                self.attach(link.place, Link { place, ..*link }, scale, heights);
                self.way.push(link.place)?;
            }
        }
        Ok(())
    }
}
