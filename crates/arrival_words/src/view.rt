// What a seat knows, as plain data.
ghost use Rattle.std.specs.Prelude.{ℤ, List};
ghost use Rattle.std.specs.Borrow.{ftrue};
ghost use Rattle.arrival_words.specs.About.{About};

use std::marker::Model;

/// What a seat knows: for each event the weight of a walk. No value of it is made.
pub struct View {
    // The system, the root and the period.
    pub ghost about: { About },
    // One number for each event, or none where the seat was joined.
    pub ghost known: { List ℤ },
}

impl Model for View {
    ghost also_owns = { λ _. ftrue };
}
