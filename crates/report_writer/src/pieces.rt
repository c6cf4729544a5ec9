//! Pieces that several lines have.
ghost use Rattle.std.specs.Prelude.{◌≡◌, ◌<◌, ◌*◌, ◌++◌, OnOk, length};
ghost use Rattle.netlist_model.specs.EventNames.{event_name};
ghost use Rattle.report_writer.specs.Pieces as spec;

use cyc_text::{push_decimal, push_signed};
use netlist_model::Netlist;
use rule_system::Rule;
use std::alloc::AllocError;

/// Adds a number that is scaled by the period's bottom.
pub(crate) fn push_scaled(text: &mut Vec<u8>, number: i64, bottom: u64) -> Result<(), AllocError>
    ensures { OnOk result (text.new.items ≡ text.old.items ++ spec.scaled bottom number) }
{
    push_signed(text, number)?;
    text.extend_from_slice(b"/")?;
    push_decimal(text, bottom)
}

/// Adds an event's name.
#[tactic(auto, unfolding(netlist_model::specs::EventNames::event_name), using(crate::proofs::Lines::name_stands))]
pub(crate) fn push_event(text: &mut Vec<u8>, net: &Netlist, event: u32) -> Result<(), AllocError>
    requires { event < 2 * length net.now.nets }
    ensures { OnOk result (text.new.items ≡ text.old.items ++ event_name net.now.nets event) }
{
    text.extend_from_slice(net.net_name((event / 2) as usize))?;
    text.push(if event % 2 == 0 { b'+' } else { b'-' })?;
    Ok(())
}

/// Adds the events of a rule, a space before each.
fn push_ends(text: &mut Vec<u8>, net: &Netlist, rule: Rule) -> Result<(), AllocError>
    requires source { rule.source < 2 * length net.now.nets }
    requires target { rule.target < 2 * length net.now.nets }
    ensures { OnOk result (text.new.items ≡ text.old.items ++ spec.ends net.now.nets rule) }
{
    text.extend_from_slice(b" ")?;
    push_event(text, net, rule.source)?;
    text.extend_from_slice(b" ")?;
    push_event(text, net, rule.target)
}

/// Adds the number, the events, the delay and the offset of a rule, and ends the line.
pub(crate) fn push_rule(
    text: &mut Vec<u8>,
    net: &Netlist,
    number: u64,
    rule: Rule,
) -> Result<(), AllocError>
    requires source { rule.source < 2 * length net.now.nets }
    requires target { rule.target < 2 * length net.now.nets }
    ensures { OnOk result (text.new.items ≡ text.old.items ++ spec.rule_words net.now.nets number rule) }
{
    push_decimal(text, number)?;
    push_ends(text, net, rule)?;
    text.extend_from_slice(b" ")?;
    push_decimal(text, u64::from(rule.delay))?;
    text.extend_from_slice(b" ")?;
    push_decimal(text, u64::from(rule.offset))?;
    text.extend_from_slice(b"\n")
}
