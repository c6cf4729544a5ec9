//! The ratio that a search tests: that of the best cycle, or one above it.

ghost use Rattle.std.specs.Prelude.{◌<◌};

use cyc_num::Ratio;
use std::cmp::Ordering;

/// How often the best ratio rises before ratios above it are tested.
const MOST_RISES: u32 = 32;

/// The most parts of a unit in which ratios above the best one are counted.
const MOST_PARTS: u64 = 1 << 20;

/// How many parts the best ratio has at most, where a unit has more than one.
const MOST_LOW: u64 = 1 << 35;

/// How many parts a ratio above it has at most, so that sums of weights stay within 64 bits.
const MOST_HIGH: u64 = 1 << 40;

/// The ratio that is tested, the best cycle's, and one that no cycle exceeds, once one is known.
#[derive(Clone, Copy)]
pub struct Goals {
    goal: Ratio,
    best: Ratio,
    most: Option<Ratio>,
    step: u64,
    rises: u32,
}

impl Goals {
    /// No cycle is known.
    pub fn none() -> Goals {
        Goals {
            goal: Ratio::of(0, 1),
            best: Ratio::of(0, 1),
            most: None,
            step: 1,
            rises: 0,
        }
    }

    /// The ratio that is tested.
    pub fn goal(&self) -> Ratio {
        self.goal
    }

    /// How often the best ratio rose, from none on.
    pub fn rises(&self) -> u32 {
        self.rises
    }

    /// Whether a cycle of this ratio is better than the best one, or the first.
    pub fn is_below(&self, ratio: Ratio) -> bool {
        self.rises == 0 || ratio.order(&self.best) == Ordering::Greater
    }

    /// Whether the best cycle's own ratio is tested.
    pub fn is_at_best(&self) -> bool {
        self.goal.order(&self.best) == Ordering::Equal
    }

    /// Takes a better cycle's ratio for the best one. Answers whether another ratio is tested now, since this one is above
    /// the one that was, or the first.
    pub fn rise(&mut self, ratio: Ratio) -> bool {
        let is_beyond = self.rises == 0 || ratio.order(&self.goal) == Ordering::Greater;
        self.best = ratio;
        self.rises = self.rises.saturating_add(1);
        if is_beyond {
            self.set();
        }
        is_beyond
    }

    /// Notes that no cycle exceeds the ratio that is tested, and goes on to a lower one.
    pub fn lower(&mut self) {
        self.most = Some(self.goal);
        self.set();
    }

    /// Sets the ratio to be tested: the best one, as long as it did not rise often; then ratios above it by more and more,
    /// and once one is known that no cycle exceeds, the middle, as long as the parts tell them apart.
    fn set(&mut self) {
        self.goal = self.best;
        if self.rises <= MOST_RISES {
            return;
        }
        let parts = parts_of_unit(self.best);
        let low = in_parts(self.best, parts);
        let count = match self.most {
            Some(most) => low.saturating_add(in_parts(most, parts).saturating_sub(low) / 2),
            None => {
                self.step = self.step.saturating_mul(16);
                low.saturating_add(self.step).min(MOST_HIGH)
            }
        };
        let goal = Ratio::of(count, parts);
        if goal.order(&self.best) == Ordering::Greater {
            self.goal = goal;
        }
    }
}

/// In how many parts a unit is cut.
fn parts_of_unit(ratio: Ratio) -> u64
    ensures { 0 < result }
{
    let units = whole(ratio.top(), ratio.bottom()).saturating_add(1);
    (MOST_LOW / units).min(MOST_PARTS).max(1)
}

/// A ratio in parts of a unit, as a whole number.
fn in_parts(ratio: Ratio, parts: u64) -> u64 {
    whole(ratio.top().saturating_mul(parts), ratio.bottom())
}

/// The whole part of a quotient.
fn whole(top: u64, bottom: u64) -> u64 {
    top / bottom.max(1)
}
