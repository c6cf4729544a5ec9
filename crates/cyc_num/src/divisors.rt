//! The greatest common divisor.
ghost use Rattle.std.specs.Int.{IsGcd};

/// The greatest common divisor; of 0 and 0 it is 0.
/// By Euclid's remainders, in a number of steps that is logarithmic in the lesser number.
pub fn gcd(a: u64, b: u64) -> u64
    ensures { IsGcd a b result }
{
    let mut greater = a;
    let mut lesser = b;
    'remainders: while lesser != 0 {
        let rest = greater % lesser;
        greater = lesser;
        lesser = rest;
    }
    greater
}
