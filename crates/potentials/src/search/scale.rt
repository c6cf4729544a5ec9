//! The weights that a ratio gives rules, as a search takes them.

use crate::search::links::Link;
use cyc_num::Ratio;

/// The terms of a ratio. Beyond the limits of a system the weights wrap.
#[derive(Clone, Copy)]
pub struct Scale {
    top: i64,
    bottom: i64,
}

impl Scale {
    /// The terms of the ratio.
    pub fn of(ratio: Ratio) -> Scale {
        Scale {
            top: i64::try_from(ratio.top()).unwrap_or(0),
            bottom: i64::try_from(ratio.bottom()).unwrap_or(0),
        }
    }

    /// The weight of a rule.
    pub fn weight(self, link: Link) -> i64 {
        let gain = self.bottom.wrapping_mul(link.delay as i64);
        gain.wrapping_sub(self.top.wrapping_mul(link.offset as i64))
    }
}
