//! Numbers of events that no kept rule raises, and whether an event can be on a cycle by them.
ghost use Rattle.std.specs.Prelude.{◌≡◌, ◌<◌, ℕ, IfOk, Bool, true, false, length};
ghost use Rattle.rule_system.specs.FirstCycle.{kept_by};
ghost use Rattle.first_cycle.specs.Numbers.{AreUnraised, StaysOnNumber};
ghost use Rattle.rule_system.specs.Walks.{EndsBelow};

use crate::components::component_numbers;
use rule_system::{Rule, System};
use std::alloc::{AllocError, Global};

/// A number for each event that no kept rule raises: those of the components, and else 0 for all.
pub fn unraised_numbers(
    alloc: Global,
    system: &System,
    keep: &[bool],
) -> Result<Vec<u32>, AllocError>
    requires { length keep.now ≡ length system.now.rules }
    ensures count { IfOk result (λ numbers. length numbers.items ≡ system.now.events) }
    ensures unraised { IfOk result (λ numbers. AreUnraised system.now.rules keep.now numbers.items) }
{
    let mut numbers = component_numbers(alloc, system, keep)?;
    if !are_unraised(system.rules(), keep, &numbers) {
        numbers = vec![in alloc; 0; system.events() as usize]?;
    }
    Ok(numbers)
}

/// Whether no kept rule leads to a greater number.
fn are_unraised(rules: &[Rule], keep: &[bool], numbers: &[u32]) -> bool
    requires keep { length keep.now ≡ length rules.now }
    requires ends { EndsBelow (length numbers.now) rules.now }
    ensures { result ≡ true → AreUnraised rules.now keep.now numbers.now }
{
    'rules: for (number, rule) in rules.iter().enumerate() {
        if keep[number] && numbers[rule.source as usize] < numbers[rule.target as usize] {
            return false;
        }
    }
    true
}

/// Whether some kept rule leads from an event to one of the same number. Only then a cycle may start there.
pub fn stays_on_number(system: &System, keep: &[bool], numbers: &[u32], event: u32) -> bool
    requires keep { length keep.now ≡ length system.now.rules }
    requires count { length numbers.now ≡ system.now.events }
    requires event { event < system.now.events }
    ensures some { result ≡ true → (n : ℕ) × StaysOnNumber system.now.rules keep.now numbers.now event n }
    ensures none { result ≡ false → (n : ℕ) → StaysOnNumber system.now.rules keep.now numbers.now event n → ⊥ }
{
    let rules = system.rules();
    'rules: for number in system.out_of_event(event) {
        let target = rules[*number as usize].target;
        if keep[*number as usize] && numbers[target as usize] == numbers[event as usize] {
            return true;
        }
    }
    false
}
