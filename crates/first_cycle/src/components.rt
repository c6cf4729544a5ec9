//! Numbers of strongly connected components, which are proposed and not proved.
ghost use Rattle.std.specs.Prelude.{◌≡◌, ◌<◌, ◌^◌, All, IfOk, IfSome, length};

use rule_system::System;
use std::alloc::{AllocError, Global};

/// For each event the number of its strongly connected component under the kept rules, in topological order: no
/// kept rule leads to a greater number. Nothing of this is proved but the count; who uses the numbers tests them.
///
/// D. J. Pearce, A space-efficient algorithm for finding strongly connected components (2016), without recursion and
/// against the rules' direction. Linear in events and rules.
pub fn component_numbers(
    alloc: Global,
    system: &System,
    keep: &[bool],
) -> Result<Vec<u32>, AllocError>
    requires { length keep.now ≡ length system.now.rules }
    ensures { IfOk result (λ numbers. length numbers.items ≡ system.now.events) }
{
    let events = system.events();
    let mut search = Components::new(alloc, events)?;
    let mut start = 0;
    'steps: for _ in 0..3 * events as usize + system.rules().len() {
        if search.step(system, keep)? {
            continue;
        }
        if start == events {
            break;
        }
        search.enter(start)?;
        start += 1;
    }
    Ok(search.numbers)
}

/// An event under visit.
#[derive(Clone, Copy)]
struct Visit {
    event: u32,
    /// How many of the rules into the event were looked at.
    looked: usize,
    /// Whether no event that was entered earlier was met.
    is_root: bool,
}

/// A depth-first search for strongly connected components.
#[derive(Drop)]
struct Components {
    /// For each event 0 before its visit, then the least place of an event met from it, in the end its component's number.
    numbers: Vec<u32>,
    /// The events under visit, each met from the one before.
    path: Vec<Visit>,
    /// The events whose visit has ended and whose component has no number yet.
    waiting: Vec<u32>,
    /// The place of the next event that is entered.
    next_place: u32,
    /// The number of the next component that ends. It falls and stays above all places.
    next_number: u32,
    ghost path_inside: { All (λ visit. visit.event < length numbers.items) path.items },
    ghost waiting_inside: { All (λ event. event < length numbers.items) waiting.items },
}

impl Components {
    /// A search that has entered no event.
    fn new(alloc: Global, events: u32) -> Result<Components, AllocError>
        ensures { IfOk result (λ search. length search.numbers.items ≡ events) }
    {
        Ok(Components {
            numbers: vec![in alloc; 0; events as usize]?,
            path: Vec::new(alloc),
            waiting: Vec::new(alloc),
            next_place: 1,
            next_number: events,
        })
    }

    /// Enters an event, unless it was entered before.
    fn enter(&mut self, event: u32) -> Result<(), AllocError>
        requires { event < length self.old.numbers.items }
        ensures { length self.new.numbers.items ≡ length self.old.numbers.items }
    {
        if self.numbers[event as usize] == 0 {
            self.numbers[event as usize] = self.next_place;
            self.next_place = self.next_place.saturating_add(1);
            self.path.push(Visit {
                event,
                looked: 0,
                is_root: true,
            })?;
        }
        Ok(())
    }

    /// Goes on with the newest visit, and answers whether there was one.
    fn step(&mut self, system: &System, keep: &[bool]) -> Result<bool, AllocError>
        requires count { length self.old.numbers.items ≡ system.now.events }
        requires keep { length keep.now ≡ length system.now.rules }
        ensures { length self.new.numbers.items ≡ length self.old.numbers.items }
    {
        let Some(visit) = self.path.pop() else {
            return Ok(false);
        };
        if let Some(number) = rule_into(system, visit.event, visit.looked) {
            let source = system.rules()[number as usize].source;
            if keep[number as usize] {
                self.look(visit, source)?;
            } else {
                self.pass(visit)?;
            }
        } else {
            self.leave(visit)?;
        }
        Ok(true)
    }

    /// Goes on with a visit at a kept rule from a source: enters the source, or takes what was met from there.
    fn look(&mut self, mut visit: Visit, source: u32) -> Result<(), AllocError>
        requires event { visit.event < length self.old.numbers.items }
        requires room { visit.looked < 2 ^ 63 }
        requires source { source < length self.old.numbers.items }
        ensures { length self.new.numbers.items ≡ length self.old.numbers.items }
    {
        let met = self.numbers[source as usize];
        if met == 0 {
            self.path.push(visit)?;
            return self.enter(source);
        }
        if met < self.numbers[visit.event as usize] {
            self.numbers[visit.event as usize] = met;
            visit.is_root = false;
        }
        self.pass(visit)
    }

    /// Goes on with a visit after a rule.
    fn pass(&mut self, mut visit: Visit) -> Result<(), AllocError>
        requires event { visit.event < length self.old.numbers.items }
        requires room { visit.looked < 2 ^ 63 }
        ensures { length self.new.numbers.items ≡ length self.old.numbers.items }
    {
        visit.looked += 1;
        Ok(self.path.push(visit)?)
    }

    /// Ends a visit: a root's component is complete, and another event waits for its root.
    fn leave(&mut self, visit: Visit) -> Result<(), AllocError>
        requires { visit.event < length self.old.numbers.items }
        ensures { length self.new.numbers.items ≡ length self.old.numbers.items }
    {
        if !visit.is_root {
            return Ok(self.waiting.push(visit.event)?);
        }
        let place = self.numbers[visit.event as usize];
        'members: while let Some(member) = self.waiting.pop() {
            if self.numbers[member as usize] < place {
                self.waiting.push(member)?;
                break;
            }
            self.numbers[member as usize] = self.next_number;
            self.next_place = self.next_place.saturating_sub(1);
        }
        self.numbers[visit.event as usize] = self.next_number;
        self.next_number = self.next_number.saturating_sub(1);
        self.next_place = self.next_place.saturating_sub(1);
        Ok(())
    }
}

/// The rule into an event at a place of its list.
fn rule_into(system: &System, event: u32, place: usize) -> Option<u32>
    requires { event < system.now.events }
    ensures inside { IfSome result (λ number. number < length system.now.rules) }
    ensures room { IfSome result (λ _. place < 2 ^ 63) }
{
    let numbers = system.into_event(event);
    if place >= numbers.len() {
        return None;
    }
    Some(numbers[place])
}
