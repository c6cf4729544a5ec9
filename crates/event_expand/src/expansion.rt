//! The expansion of a netlist, in pieces of consecutive instances.
ghost use Rattle.std.specs.Prelude.{◌≡◌, ◌≤◌, ◌<◌, ◌*◌, [], IfOk, length, map};
ghost use Rattle.std.specs.List.{flat_map};
ghost use Rattle.netlist_model.specs.Expansion.{rules_of};
ghost use Rattle.netlist_model.specs.Sound.{Fits, IsNetlist};
ghost use Rattle.rule_system.specs.Bounds.{most_rules};
ghost use Rattle.event_expand.specs.Pieces.{Holds, Grows, rules_at};
ghost use Rattle.event_expand.specs.Systems.{system_of, system_rules};

use crate::instances::push_instance;
use cell_arcs::Library;
use netlist_model::Netlist;
use rayon::prelude::*;
use rule_system::{Rule, System};
use std::alloc::{AllocError, Global};
use std::thread::Threads;

/// The fewest instances of a piece.
const LEAST_PIECE: usize = 256;

/// A piece with the rules of one more instance.
fn with_instance(
    piece: Result<Vec<Rule>, AllocError>,
    library: &Library,
    net: &Netlist,
    at: usize,
) -> Result<Vec<Rule>, AllocError>
    requires within { at < length net.now.insts }
    requires sound { IsNetlist net.now }
    requires fits { Fits library.now net.now.insts }
    ensures { Grows (rules_at library.now net.now at) piece result }
{
    let mut rules = piece?;
    push_instance(&mut rules, library, net, at)?;
    Ok(rules)
}

/// The rules of pieces of consecutive instances, the pieces in order. Where there are enough instances, pieces may be made
/// on threads of their own.
fn pieces_of<R: Threads + Sync>(
    rt: &R,
    alloc: Global,
    library: &Library,
    net: &Netlist,
) -> Result<Vec<Vec<Rule>>, AllocError>
    requires sound { IsNetlist net.now }
    requires fits { Fits library.now net.now.insts }
    ensures { IfOk result (λ pieces. flat_map (λ v. v.items) pieces.items ≡ system_rules library.now net.now) }
{
    (0..net.inst_count())
        .into_par_iter()
        .with_min_len(LEAST_PIECE)
        .fold(
            || -> Result<Vec<Rule>, AllocError>
                ensures { Holds [] result }
            { Ok(Vec::new(alloc)) },
            |piece: Result<Vec<Rule>, AllocError>, at: usize| -> Result<Vec<Rule>, AllocError>
                requires { (at < length net.now.insts) × IsNetlist net.now × Fits library.now net.now.insts }
                ensures { Grows (rules_at library.entry.now net.entry.now at) piece result }
            { with_instance(piece, library, net, at) },
        )
        .collect(rt, alloc)?
}

/// The event-rule system of a netlist: two events for each net with events, and the rules of the expansion.
pub fn expand<R: Threads + Sync>(
    rt: &R,
    alloc: Global,
    library: &Library,
    net: &Netlist,
) -> Result<System, AllocError>
    requires fits { Fits library.now net.now.insts }
    requires few { length (rules_of library.now net.now) ≤ most_rules }
    ensures { IfOk result (λ system. system ≡ system_of library.now net.now) }
{
    let events = 2 * net.net_count() as u32;
    library.sound();
    let pieces = pieces_of(rt, alloc, library, net)?;
    let rules = pieces.concat(alloc)?;
    System::build(alloc, events, rules)
}
