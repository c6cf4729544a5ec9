//! Replies to queries on a pinned version.
ghost use Rattle.std.specs.Prelude.{◌≡◌, ◌*◌, ◌<◌, ◌≤◌, All, IfOk, length, map};
ghost use Rattle.std.specs.Arc.{arc_value};
ghost use Rattle.netlist_model.specs.Circuit.{event_of, fork_of};
ghost use Rattle.rule_system.specs.Bounds.{AreSmallSums};
ghost use Rattle.rule_system.specs.Rules.{source_of};
ghost use Rattle.session_machine.specs.Table.{found};
ghost use Rattle.session_machine.specs.declared.replies.Reply.TheVariants.{Arrival, Slack};
ghost use Rattle.session_machine.specs.declared.replies.Refusal.TheVariants.{NoEvent, NoFork};
ghost use Rattle.query_replies.specs.Readings as spec;
ghost use Rattle.query_replies.specs.Readings.{first_name, row_readings, told_or};

use cyc_text::Text;
use netlist_analysis::laws::finding_is_unique;
use netlist_model::{EventName, Netlist};
use pinned_reader::{Pinned, Row};
use report_writer::report_text;
use rule_system::Rule;
use rule_system::laws::first_cycles_have_small_sums;
use rule_system::measures::{delay_of, offset_of};
use session_machine::{Refusal, Reply};
use std::alloc::{AllocError, Global};

/// The name of the first event of a cycle.
fn first_event(
    alloc: Global,
    netlist: &Netlist,
    rules: &[Rule],
    cycle: &[u32],
) -> Result<Text, AllocError>
    requires within { All (λ n. n < length rules.now) cycle.now }
    requires rules { All (λ r. r.source < 2 * length netlist.now.nets) rules.now }
    ensures { IfOk result (λ name. name ≡ first_name netlist.now.nets (map (source_of rules.now) cycle.now)) }
{
    match cycle {
        [] => Text::of(alloc, b""),
        [first, ..] => netlist.event_name(rules[*first as usize].source),
    }
}

/// The reply to `period`: the period of the pinned version.
pub fn period_reply(pinned: &Pinned) -> Reply
    ensures { result ≡ (row_readings (arc_value pinned.now.row)).period (arc_value pinned.now.row).netlist }
{
    let row: &Row = &pinned.row;
    Reply::Period(row.analysis.period)
}

/// An arrival and its scale, or that there is no such event.
fn arrival_told(arrival: Option<i64>, bottom: u64) -> Reply
    ensures { result ≡ told_or NoEvent (λ a. Arrival a bottom) arrival }
{
    match arrival {
        Some(arrival) => Reply::Arrival(arrival, bottom),
        None => Reply::Refused(Refusal::NoEvent),
    }
}

/// A slack and its scale, or that there is no such fork.
fn slack_told(slack: Option<i64>, bottom: u64) -> Reply
    ensures { result ≡ told_or NoFork (λ s. Slack s bottom) slack }
{
    match slack {
        Some(slack) => Reply::Slack(slack, bottom),
        None => Reply::Refused(Refusal::NoFork),
    }
}

/// The reply to `arrival`: the arrival of the event of a name, or that there is no such event.
pub fn arrival_reply(pinned: &Pinned, event: &EventName) -> Reply
    ensures { result ≡ found NoEvent ((row_readings (arc_value pinned.now.row)).arrival (arc_value pinned.now.row).netlist)
        (event_of (arc_value pinned.now.row).netlist.nets event.now) }
{
    finding_is_unique();
    pinned.row.right();
    arrival_told(pinned.arrival(event), pinned.period().bottom())
}

/// The reply to `slack`: the slack of the fork of a name, or that there is no such fork.
pub fn slack_reply(pinned: &Pinned, fork: &[u8]) -> Reply
    ensures { result ≡ found NoFork ((row_readings (arc_value pinned.now.row)).slack (arc_value pinned.now.row).netlist)
        (fork_of (arc_value pinned.now.row).netlist.forks fork.now) }
{
    finding_is_unique();
    pinned.row.right();
    slack_told(pinned.slack(fork), pinned.period().bottom())
}

/// How many rules a cycle has, the sums of their delays and offsets, and its first event.
fn told_cycle(
    alloc: Global,
    netlist: &Netlist,
    rules: &[Rule],
    cycle: &[u32],
) -> Result<Reply, AllocError>
    requires small { AreSmallSums rules.now cycle.now }
    requires rules { All (λ r. r.source < 2 * length netlist.now.nets) rules.now }
    ensures { IfOk result (λ r. r ≡ spec.cycle_reply netlist.now.nets rules.now cycle.now) }
{
    let event = first_event(alloc, netlist, rules, cycle)?;
    Ok(Reply::Cycle(
        cycle.len() as u64,
        delay_of(rules, cycle),
        offset_of(rules, cycle),
        event,
    ))
}

/// The reply to `cycle`: how many rules the critical cycle has, the sums of their delays and offsets, and its first event.
/// `AllocError` only for want of memory.
pub fn cycle_reply(alloc: Global, pinned: &Pinned) -> Result<Reply, AllocError>
    ensures { IfOk result (λ r. r ≡ (row_readings (arc_value pinned.now.row)).cycle (arc_value pinned.now.row).netlist) }
{
    first_cycles_have_small_sums();
    let row: &Row = &pinned.row;
    row.right();
    told_cycle(
        alloc,
        &row.netlist,
        row.system.rules(),
        row.analysis.cycle.list(),
    )
}

/// The reply to `report`: the whole report of the pinned version. `AllocError` only for want of memory. Linear in the text.
pub fn report_reply(alloc: Global, pinned: &Pinned) -> Result<Reply, AllocError>
    ensures { IfOk result (λ r. r ≡ (row_readings (arc_value pinned.now.row)).report (arc_value pinned.now.row).netlist) }
{
    let row: &Row = &pinned.row;
    row.right();
    let text = report_text(alloc, &row.netlist, &row.system, &row.analysis)?;
    Ok(Reply::Report(text))
}
