//! The text of a report.
ghost use Rattle.std.specs.Prelude.{◌≡◌, ◌*◌, ◌<◌, ◌≤◌, ◌++◌, All, IfOk, OnOk, length};
ghost use Rattle.rule_system.specs.Bounds.{AreSmallSums, IsRule};
ghost use Rattle.report_writer.specs.Report as spec;
ghost use Rattle.report_writer.specs.Rightness.{IsRightFor};

use crate::pieces::{push_event, push_rule, push_scaled};
use analysis::Analysis;
use cyc_num::Ratio;
use cyc_text::{Text, push_decimal};
use netlist_model::Netlist;
use rule_system::laws::first_cycles_have_small_sums;
use rule_system::measures::{delay_of, offset_of};
use rule_system::{Rule, System};
use std::alloc::{AllocError, Global};

/// Adds the line of the period.
pub(crate) fn push_period(text: &mut Vec<u8>, period: Ratio) -> Result<(), AllocError>
    ensures { OnOk result (text.new.items ≡ text.old.items ++ spec.period_line period) }
{
    text.extend_from_slice(b"period ")?;
    push_decimal(text, period.top())?;
    text.extend_from_slice(b"/")?;
    push_decimal(text, period.bottom())?;
    text.extend_from_slice(b"\n")
}

/// Adds the line of the cycle's length and sums.
pub(crate) fn push_cycle(
    text: &mut Vec<u8>,
    rules: &[Rule],
    cycle: &[u32],
) -> Result<(), AllocError>
    requires { AreSmallSums rules.now cycle.now }
    ensures { OnOk result (text.new.items ≡ text.old.items ++ spec.cycle_line rules.now cycle.now) }
{
    text.extend_from_slice(b"cycle ")?;
    push_decimal(text, cycle.len() as u64)?;
    text.extend_from_slice(b" ")?;
    push_decimal(text, delay_of(rules, cycle))?;
    text.extend_from_slice(b" ")?;
    push_decimal(text, offset_of(rules, cycle))?;
    text.extend_from_slice(b"\n")
}

/// Adds the lines of the cycle's rules.
#[tactic(auto, unfolding(crate::specs::Report::step_lines))]
fn push_steps(
    text: &mut Vec<u8>,
    net: &Netlist,
    rules: &[Rule],
    cycle: &[u32],
) -> Result<(), AllocError>
    requires rules { All (IsRule (2 * length net.now.nets)) rules.now }
    requires within { All (λ n. n < length rules.now) cycle.now }
    ensures { OnOk result (text.new.items ≡ text.old.items ++ spec.step_lines net.now.nets rules.now cycle.now) }
{
    'numbers: for number in cycle {
        text.extend_from_slice(b"step ")?;
        push_rule(text, net, u64::from(*number), rules[*number as usize])?;
    }
    Ok(())
}

/// Adds the line of an event's arrival.
fn push_arrival(
    text: &mut Vec<u8>,
    net: &Netlist,
    event: u32,
    arrival: i64,
    bottom: u64,
) -> Result<(), AllocError>
    requires { event < 2 * length net.now.nets }
    ensures { OnOk result (text.new.items ≡ text.old.items ++ spec.arrival_line net.now.nets bottom event arrival) }
{
    text.extend_from_slice(b"arrival ")?;
    push_event(text, net, event)?;
    text.extend_from_slice(b" ")?;
    push_scaled(text, arrival, bottom)?;
    text.extend_from_slice(b"\n")
}

/// Adds the lines of the arrivals.
#[tactic(auto, unfolding(crate::specs::Report::arrival_lines))]
fn push_arrivals(
    text: &mut Vec<u8>,
    net: &Netlist,
    arrivals: &[i64],
    bottom: u64,
) -> Result<(), AllocError>
    requires { length arrivals.now ≡ 2 * length net.now.nets }
    ensures { OnOk result (text.new.items ≡ text.old.items ++ spec.arrival_lines net.now.nets bottom 0 arrivals.now) }
{
    net.sound();
    for (event, arrival) in arrivals.iter().enumerate() {
        push_arrival(text, net, event as u32, *arrival, bottom)?;
    }
    Ok(())
}

/// Whether a fork is met.
fn met_word(slack: i64) -> &'static str
    ensures { result.now ≡ spec.met_word slack }
{
    if slack >= 0 { " met\n" } else { " missed\n" }
}

/// Adds the line of a fork's slack.
fn push_fork(text: &mut Vec<u8>, name: &[u8], slack: i64, bottom: u64) -> Result<(), AllocError>
    ensures { OnOk result (text.new.items ≡ text.old.items ++ spec.fork_line bottom name.now slack) }
{
    text.extend_from_slice(b"fork ")?;
    text.extend_from_slice(name)?;
    text.extend_from_slice(b" ")?;
    push_scaled(text, slack, bottom)?;
    text.extend_from_slice(met_word(slack).as_bytes())
}

/// Adds the lines of the forks.
#[tactic(auto, unfolding(crate::specs::Report::fork_lines))]
fn push_forks(
    text: &mut Vec<u8>,
    net: &Netlist,
    slacks: &[i64],
    bottom: u64,
) -> Result<(), AllocError>
    requires { length slacks.now ≡ length net.now.forks }
    ensures { OnOk result (text.new.items ≡ text.old.items ++ spec.fork_lines bottom net.now.forks slacks.now) }
{
    for (at, slack) in slacks.iter().enumerate() {
        push_fork(text, net.fork(at).name.bytes(), *slack, bottom)?;
    }
    Ok(())
}

/// Adds the whole report.
fn push_report(
    text: &mut Vec<u8>,
    net: &Netlist,
    system: &System,
    analysis: &Analysis,
) -> Result<(), AllocError>
    requires events { system.now.events ≡ 2 * length net.now.nets }
    requires arrivals { length analysis.now.arrivals ≡ system.now.events }
    requires slacks { length analysis.now.slacks ≡ length net.now.forks }
    requires cycle { AreSmallSums system.now.rules analysis.now.cycle }
    ensures { OnOk result (text.new.items ≡ text.old.items ++ spec.report_text net.now system.now analysis.now) }
{
    let rules = system.rules();
    let cycle = analysis.cycle.list();
    let bottom = analysis.period.bottom();
    push_period(text, analysis.period)?;
    push_cycle(text, rules, cycle)?;
    push_steps(text, net, rules, cycle)?;
    push_arrivals(text, net, analysis.arrivals.list(), bottom)?;
    push_forks(text, net, analysis.slacks.list(), bottom)?;
    text.extend_from_slice(b"end\n")
}

/// The report of an analysis: `period P/k`; `cycle LENGTH DELAY OFFSET` with the sums over the critical cycle; for each of
/// its rules, in order, `step I SOURCE TARGET DELAY OFFSET`; for each event, in order, `arrival EVENT V/k`; for each fork,
/// in order, `fork NAME V/k met` or `fork NAME V/k missed`; `end`. P is in picoseconds a repetition, and V
/// in picoseconds, both scaled by k. V/k is not reduced.
///
/// The system has two events for each net with events, and the analysis is right for it, with as many forks as the netlist
/// has. `AllocError` only for want of memory. Linear in the text.
pub fn report_text(
    alloc: Global,
    net: &Netlist,
    system: &System,
    analysis: &Analysis,
) -> Result<Text, AllocError>
    requires events { system.now.events ≡ 2 * length net.now.nets }
    requires right { IsRightFor system.now (length net.now.forks) analysis.now }
    ensures { IfOk result (λ text. text ≡ spec.report_text net.now system.now analysis.now) }
{
    first_cycles_have_small_sums();
    system.sound();
    let mut text = Vec::new(alloc);
    push_report(&mut text, net, system, analysis)?;
    Text::of(alloc, &text)
}
