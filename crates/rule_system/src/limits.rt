//! The limits of a system, as `IsSystem` has them.

/// The most events of a system.
pub const MOST_EVENTS: u32 = 32_768;

/// The most rules of a system.
pub const MOST_RULES: usize = 131_072;

/// The greatest delay of a rule of a system, in picoseconds.
pub const MOST_DELAY: u32 = 1_000_000;

/// The greatest offset of a rule of a system, in repetitions.
pub const MOST_OFFSET: u32 = 15;
