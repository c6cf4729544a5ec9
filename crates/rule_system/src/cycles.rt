//! Cycles as lists of rule numbers.
ghost use Rattle.std.specs.Prelude.{◌≡◌};

use std::marker::Model;

/// A list of rule numbers, as of a cycle: each rule's target is the next rule's source.
#[derive(Debug, Drop)]
pub struct Cycle {
    numbers: Vec<u32>,
}

impl Model for Cycle {
    ghost use Rattle.std.specs.Prelude.{List, ℕ};

    ghost Value = { List ℕ };

    ghost view = { λ c. c.numbers.items };
}

impl Cycle {
    /// The cycle of these rule numbers, in their order.
    pub fn of(numbers: Vec<u32>) -> Cycle
        ensures numbers { result ≡ numbers.items }
    {
        Cycle { numbers }
    }

    /// The rule numbers, in their order.
    pub fn list(&self) -> &[u32]
        ensures numbers { result.now ≡ self.now }
    {
        &self.numbers
    }
}
