//! The text of a ring's analysis.
ghost use Rattle.std.specs.Prelude.{◌≡◌, ◌*◌, ◌++◌, IfOk, OnOk, decimal, length};
ghost use Rattle.report_writer.specs.BenchText as spec;
ghost use Rattle.report_writer.specs.Rightness.{IsRightFor};

use crate::pieces::push_scaled;
use crate::reports::{push_cycle, push_period};
use analysis::Analysis;
use cyc_text::{Text, push_decimal};
use netlist_model::Netlist;
use rule_system::System;
use rule_system::laws::first_cycles_have_small_sums;
use std::alloc::{AllocError, Global};

/// The least of some numbers; 0 of none.
fn least_of(numbers: &[i64]) -> i64
    ensures { result ≡ spec.least_of numbers.now }
{
    let [first, rest @ ..] = numbers else {
        return 0;
    };
    let mut least = *first;
    'rest: for number in rest {
        least = least.min(*number);
    }
    least
}

/// The greatest of some numbers; 0 of none.
fn greatest_of(numbers: &[i64]) -> i64
    ensures { result ≡ spec.greatest_of numbers.now }
{
    let [first, rest @ ..] = numbers else {
        return 0;
    };
    let mut greatest = *first;
    'rest: for number in rest {
        greatest = greatest.max(*number);
    }
    greatest
}

/// Adds the line of the ring's stages.
fn push_stages(text: &mut Vec<u8>, stages: u32) -> Result<(), AllocError>
    ensures { OnOk result (text.new.items ≡ text.old.items ++ spec.stages_line stages) }
{
    text.extend_from_slice(b"bench ")?;
    push_decimal(text, u64::from(stages))?;
    text.extend_from_slice(b"\n")
}

/// Adds a number behind its words.
fn push_count(text: &mut Vec<u8>, words: &[u8], count: u64) -> Result<(), AllocError>
    ensures { OnOk result (text.new.items ≡ text.old.items ++ words.now ++ decimal count) }
{
    text.extend_from_slice(words)?;
    push_decimal(text, count)
}

/// Adds the line of the ring's sizes.
fn push_sizes(text: &mut Vec<u8>, net: &Netlist, system: &System) -> Result<(), AllocError>
    ensures { OnOk result (text.new.items ≡ text.old.items ++ spec.sizes_line net.now system.now) }
{
    push_count(text, b"nets ", net.net_count() as u64)?;
    push_count(text, b" events ", u64::from(system.events()))?;
    push_count(text, b" rules ", system.rules().len() as u64)?;
    text.extend_from_slice(b"\n")
}

/// Adds the line of the least and the greatest arrival.
fn push_span(text: &mut Vec<u8>, arrivals: &[i64], bottom: u64) -> Result<(), AllocError>
    ensures { OnOk result (text.new.items ≡ text.old.items ++ spec.span_line bottom arrivals.now) }
{
    text.extend_from_slice(b"arrivals ")?;
    push_scaled(text, least_of(arrivals), bottom)?;
    text.extend_from_slice(b" ")?;
    push_scaled(text, greatest_of(arrivals), bottom)?;
    text.extend_from_slice(b"\n")
}

/// The text of a ring's analysis: `bench STAGES`; `nets N events E rules R`; `period P/k`; `cycle LENGTH DELAY OFFSET` with the sums
/// over the critical cycle; `arrivals LEAST/k GREATEST/k`; `end`. P is in picoseconds a repetition, arrivals are in picoseconds, both
/// scaled by k and not reduced.
///
/// The system has two events for each net with events, and the analysis is right for it, with as many forks as the netlist has.
/// `AllocError` only for want of memory. Linear in the events and the cycle.
pub fn bench_text(
    alloc: Global,
    stages: u32,
    net: &Netlist,
    system: &System,
    analysis: &Analysis,
) -> Result<Text, AllocError>
    requires events { system.now.events ≡ 2 * length net.now.nets }
    requires right { IsRightFor system.now (length net.now.forks) analysis.now }
    ensures { IfOk result (λ text. text ≡ spec.bench_text stages net.now system.now analysis.now) }
{
    first_cycles_have_small_sums();
    let rules = system.rules();
    let mut text = Vec::new(alloc);
    push_stages(&mut text, stages)?;
    push_sizes(&mut text, net, system)?;
    push_period(&mut text, analysis.period)?;
    push_cycle(&mut text, rules, analysis.cycle.list())?;
    push_span(
        &mut text,
        analysis.arrivals.list(),
        analysis.period.bottom(),
    )?;
    text.extend_from_slice(b"end\n")?;
    Text::of(alloc, &text)
}
