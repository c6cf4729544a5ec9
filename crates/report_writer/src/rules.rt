//! The text of the rules.
ghost use Rattle.std.specs.Prelude.{◌≡◌, ◌*◌, ◌++◌, All, IfOk, OnOk, length};
ghost use Rattle.rule_system.specs.Bounds.{IsRule};
ghost use Rattle.report_writer.specs.RulesText as spec;

use crate::pieces::push_rule;
use cyc_text::{Text, push_decimal};
use netlist_model::Netlist;
use rule_system::{Rule, System};
use std::alloc::{AllocError, Global};

/// Adds the line of the counts.
fn push_counts(text: &mut Vec<u8>, system: &System) -> Result<(), AllocError>
    ensures { OnOk result (text.new.items ≡ text.old.items ++ spec.count_line system.now) }
{
    text.extend_from_slice(b"events ")?;
    push_decimal(text, u64::from(system.events()))?;
    text.extend_from_slice(b" rules ")?;
    push_decimal(text, system.rules().len() as u64)?;
    text.extend_from_slice(b"\n")
}

/// Adds the lines of the rules.
#[tactic(auto, unfolding(crate::specs::RulesText::rule_lines))]
fn push_rules(text: &mut Vec<u8>, net: &Netlist, rules: &[Rule]) -> Result<(), AllocError>
    requires { All (IsRule (2 * length net.now.nets)) rules.now }
    ensures { OnOk result (text.new.items ≡ text.old.items ++ spec.rule_lines net.now.nets 0 rules.now) }
{
    for (number, rule) in rules.iter().enumerate() {
        text.extend_from_slice(b"rule ")?;
        push_rule(text, net, number as u64, *rule)?;
    }
    Ok(())
}

/// The text of the rules: `events E rules R`, then for each rule, in order, `rule I SOURCE TARGET DELAY OFFSET`.
///
/// The system has two events for each net with events. `AllocError` only for want of memory. Linear in the text.
pub fn rules_text(alloc: Global, net: &Netlist, system: &System) -> Result<Text, AllocError>
    requires { system.now.events ≡ 2 * length net.now.nets }
    ensures { IfOk result (λ text. text ≡ spec.rules_text net.now system.now) }
{
    let mut text = Vec::new(alloc);
    push_counts(&mut text, system)?;
    push_rules(&mut text, net, system.rules())?;
    Text::of(alloc, &text)
}
