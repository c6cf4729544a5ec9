// What a table of words is told when it is made.
use cyc_num::Ratio;
use rule_system::System;
use std::snapshot::Snapshot;

/// What words are opened with.
#[derive(Drop)]
pub struct Key {
    /// The system, as it was handed in.
    pub system: Snapshot<System>,
    /// Its root.
    pub root: u32,
    /// The period.
    pub period: Ratio,
    /// The words at the start.
    pub words: Snapshot<Vec<u64>>,
}
