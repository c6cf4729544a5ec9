// Which row may follow which.

/// Rows of which one may follow another.
pub trait Follows {
    // Of a row and the row before it.
    ghost follows: { Self → Self → Type 0 };
}
