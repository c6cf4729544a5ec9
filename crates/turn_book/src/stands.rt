// What the value of a book stands for.
ghost use Rattle.std.specs.Prelude.{ℕ, List};

/// A value that stands for an origin, which never changes, and for a list of entries, each made by a session with a number.
pub trait Stands {
    /// What the value began as. No value of it is made.
    type Origin;

    /// What one turn adds. No value of it is made.
    type Entry;

    ghost origin: { Self → Self.Origin };

    ghost entries: { Self → List Self.Entry };

    // The number of the session that made the entry.
    ghost session: { Self.Entry → ℕ };
}
