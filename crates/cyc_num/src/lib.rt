//! Exact ratios of whole numbers.
//!
//! The promise: a `Ratio` is in lowest terms, `of` gives one of equal value, and `order` is the exact order of values.
//!
//! Lowest terms are defined in `specs/Ratio`, ranges round 0 in `specs/Within`; the greatest common divisor in the standard
//! library. A ratio is made by `of` alone: add no other way, since callers take lowest terms from the type.
#![tactic(auto)]

mod divisors;
mod ratios;
#[cfg(test)]
mod tests;

pub use divisors::gcd;
pub use ratios::Ratio;
