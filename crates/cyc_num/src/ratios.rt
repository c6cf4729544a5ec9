//! Ratios in lowest terms.
ghost use Rattle.std.specs.Prelude.{◌≡◌, ◌*◌, ◌<◌, ◌≤◌};
ghost use Rattle.std.specs.Ordering.{nat_cmp};
ghost use Rattle.cyc_num.specs.Ratio.{IsLowest};

use crate::divisors::gcd;
use std::cmp::Ordering;
use std::marker::Model;

/// A ratio in lowest terms, its bottom at least 1.
#[derive(Clone, Copy, Debug, PartialEq, Eq)]
pub struct Ratio {
    top: u64,
    bottom: u64,
}

impl Model for Ratio {
    ghost use Rattle.cyc_num.specs.Ratio.{Fraction, IsLowest};

    ghost Value = { Fraction };

    ghost view = { λ r. record { top = r.top; bottom = r.bottom } };

    ghost invariant = { λ r. IsLowest r.top r.bottom };

    ghost inverse = { λ f. record { top = f.top; bottom = f.bottom } };
}

impl Ratio {
    /// The ratio of equal value, in lowest terms.
    pub fn of(top: u64, bottom: u64) -> Ratio
        requires { 0 < bottom }
        ensures equal { result.top * bottom ≡ top * result.bottom }
        ensures lowest { IsLowest result.top result.bottom }
        ensures top { result.top ≤ top }
        ensures bottom { result.bottom ≤ bottom }
    {
        let divisor = gcd(top, bottom);
        Ratio {
            top: top / divisor,
            bottom: bottom / divisor,
        }
    }

    /// The top, in lowest terms.
    pub fn top(&self) -> u64
        ensures top { result ≡ self.now.top }
        ensures lowest { IsLowest self.now.top self.now.bottom }
    {
        self.top
    }

    /// The bottom, in lowest terms.
    pub fn bottom(&self) -> u64
        ensures bottom { result ≡ self.now.bottom }
        ensures lowest { IsLowest self.now.top self.now.bottom }
    {
        self.bottom
    }

    /// How the value compares with another's, by exact products of 128 bits.
    pub fn order(&self, other: &Ratio) -> Ordering
        ensures exact { result ≡ nat_cmp (self.now.top * other.now.bottom) (other.now.top * self.now.bottom) }
    {
        let this = u128::from(self.top) * u128::from(other.bottom);
        let that = u128::from(other.top) * u128::from(self.bottom);
        this.cmp(&that)
    }
}
