//! Rules between events.

/// A rule between two events: the target follows the source by the delay, offset repetitions later.
#[derive(Clone, Copy, Debug, PartialEq, Eq)]
pub struct Rule {
    /// The event that the rule starts at.
    pub source: u32,
    /// The event that the rule ends at.
    pub target: u32,
    /// In picoseconds, at most 1,000,000 in a system.
    pub delay: u32,
    /// In repetitions, at most 15 in a system.
    pub offset: u32,
}
