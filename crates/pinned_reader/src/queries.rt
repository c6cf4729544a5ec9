//! Queries on a version.
ghost use Rattle.std.specs.Prelude.{◌≡◌, is_some};
ghost use Rattle.std.specs.Arc.{arc_value};
ghost use Rattle.netlist_model.specs.Circuit.{event_of, fork_of};
ghost use Rattle.pinned_reader.specs.Queries.{OfAnalysis, arrival_at, slack_at};

use crate::rows::Row;
use cyc_num::Ratio;
use netlist_model::EventName;
use std::alloc::Global;
use std::sync::Arc;

/// A version that is pinned: its number, from 0, and its row. The queries take no memory.
#[derive(Drop)]
pub struct Pinned {
    /// The version's number.
    pub number: u32,
    /// Its row.
    pub row: Arc<Row, Global>,
}

impl Pinned {
    /// The period, picoseconds a repetition in lowest terms: the greatest ratio of delay to offset over all cycles.
    pub fn period(&self) -> Ratio
        ensures { OfAnalysis (arc_value self.now.row) (λ a. result ≡ a.period) }
    {
        let row: &Row = &self.row;
        row.analysis.period
    }

    /// The critical cycle, by the numbers of its rules.
    pub fn cycle(&self) -> &[u32]
        ensures { OfAnalysis (arc_value self.now.row) (λ a. result.now ≡ a.cycle) }
    {
        let row: &Row = &self.row;
        row.analysis.cycle.list()
    }

    /// The arrival of an event from the root, in picoseconds scaled by the period's bottom; `None` where the version has no such
    /// event. One look-up by name.
    pub fn arrival(&self, event: &EventName) -> Option<i64>
        ensures arrival { OfAnalysis (arc_value self.now.row) (λ a. result ≡ arrival_at (arc_value self.now.row).netlist a event.now) }
        ensures known { is_some result ≡ is_some (event_of (arc_value self.now.row).netlist.nets event.now) }
    {
        let row: &Row = &self.row;
        let event = row.netlist.event(event.net.bytes(), event.rising)?;
        Some(row.analysis.arrivals.list()[event as usize])
    }

    /// The slack of a fork, in picoseconds scaled by the period's bottom; `None` where the version has no such fork. One look-up by
    /// name.
    pub fn slack(&self, fork: &[u8]) -> Option<i64>
        ensures slack { OfAnalysis (arc_value self.now.row) (λ a. result ≡ slack_at (arc_value self.now.row).netlist a fork.now) }
        ensures known { is_some result ≡ is_some (fork_of (arc_value self.now.row).netlist.forks fork.now) }
    {
        let row: &Row = &self.row;
        let at = row.netlist.fork_at(fork)?;
        Some(row.analysis.slacks.list()[at])
    }
}
