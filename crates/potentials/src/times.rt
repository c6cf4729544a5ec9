//! Lists of numbers, one for each event or fork.
ghost use Rattle.std.specs.Prelude.{◌≡◌};

use std::marker::Model;

/// A list of numbers, one for each event or fork, in picoseconds scaled by the period's bottom.
#[derive(Drop)]
pub struct Times {
    items: Vec<i64>,
}

impl Model for Times {
    ghost use Rattle.std.specs.Prelude.{ℤ, List};

    ghost Value = { List ℤ };

    ghost view = { λ t. t.items.items };
}

impl Times {
    /// The list of a vector's items. It takes no memory.
    pub fn of(items: Vec<i64>) -> Times
        ensures { result ≡ items.items }
    {
        Times { items }
    }

    /// The items.
    pub fn list(&self) -> &[i64]
        ensures { result.now ≡ self.now }
    {
        &self.items
    }
}
