// The forks of a netlist, found by name.
ghost use Rattle.std.specs.Prelude.{◌≡◌, ◌++◌, ◌∷◌, [], ◌==◌, ◌<◌, None, not, nat_le, ◌&&◌, length, map, remove, IfOk, IfSome, OnOk, OnErr};
ghost use Rattle.std.specs.List.{IsDistinct, list_any};
ghost use Rattle.std.specs.Str.{bytes_eq};
ghost use Rattle.netlist_model.specs.Circuit.{fork_of, kinds_after, roots_of};
ghost use Rattle.netlist_model.specs.Deletions as deletions;

use crate::keys::Keys;
use crate::parts::{Fork, event_after};
use indexmap::IndexSet;
use std::alloc::{AllocError, Global};
use std::marker::Model;

/// The most different roots of forks.
const MOST_ROOTS: usize = 64;

/// Forks in order, with their places by name and their different roots.
#[derive(Drop)]
pub(crate) struct Forks {
    items: Vec<Fork>,
    names: Keys,
    roots: IndexSet<u32>,
}

impl Model for Forks {
    ghost use Rattle.std.specs.Prelude.{List};
    ghost use Rattle.netlist_model.specs.declared.parts.Fork.{Fork};

    ghost Value = { List Fork };

    ghost view = { λ s. s.items.items };

    ghost use Rattle.std.specs.Prelude.{◌≡◌, map};
    ghost use Rattle.netlist_model.specs.Circuit.{roots_of};

    ghost invariant = { λ s. (s.names ≡ map (λ f. f.name) s.items.items)
        × (s.roots.keys ≡ roots_of s.items.items) };
}

impl Forks {
    #[tactic(auto, unfolding(crate::specs::Circuit::kinds_after))]
    pub(crate) fn empty(alloc: Global) -> Forks
        ensures { result ≡ [] }
    {
        Forks {
            items: Vec::new(alloc),
            names: Keys::empty(alloc),
            roots: IndexSet::new(alloc),
        }
    }

    pub(crate) fn list(&self) -> &[Fork]
        ensures { result.now ≡ self.now }
    {
        self.items.as_slice()
    }

    pub(crate) fn find(&self, name: &[u8]) -> Option<usize>
        ensures place { result ≡ fork_of self.now name.now }
        ensures within { IfSome result (λ at. at < length self.now) }
    {
        let _items = &self.items;
        self.names.find(name)
    }

    pub(crate) fn count(&self) -> usize
        ensures { result ≡ length self.now }
    {
        self.items.len()
    }

    /// Whether so many different roots stand that this one may not be another.
    pub(crate) fn is_past_roots(&self, root: u32) -> bool
        ensures { result ≡ (not (list_any (λ r. root == r) (roots_of self.now)) && nat_le 64 (length (roots_of self.now))) }
    {
        !self.roots.contains(&root) && self.roots.len() >= MOST_ROOTS
    }

    pub(crate) fn push(&mut self, fork: Fork) -> Result<(), AllocError>
        requires { fork_of self.old fork.name ≡ None }
        ensures ok { OnOk result (self.new ≡ self.old ++ fork ∷ []) }
        ensures err { OnErr result (self.new ≡ self.old) }
    {
        self.items.reserve(1)?;
        self.roots.reserve(1)?;
        self.names.push(fork.name.bytes())?;
        let _ = self.roots.insert(fork.root);
        let _ = self.items.push(fork);
        Ok(())
    }

    /// Takes the fork at a place away. The others keep their order.
    pub(crate) fn remove(&mut self, at: usize) -> Result<(), AllocError>
        requires within { at < length self.old }
        requires differ { IsDistinct bytes_eq (map (λ f. f.name) self.old) }
        ensures ok { OnOk result (self.new ≡ remove self.old at) }
        ensures err { OnErr result (self.new ≡ self.old) }
    {
        let alloc = *self.items.allocator();
        let mut roots = all_roots(alloc, &self.items)?;
        let _ = roots.remove(at);
        self.roots = kinds(alloc, &roots)?;
        self.names.remove(at);
        let _ = self.items.remove(at);
        Ok(())
    }

    /// Whether an event of a fork is of the net.
    pub(crate) fn is_forked(&self, net: u32) -> bool
        ensures { result ≡ list_any (deletions.is_forked net) self.now }
    {
        self.items.iter().any(|fork| is_forked(net, fork))
    }

    /// Moves up the events, once a net is away.
    pub(crate) fn leave(&mut self, gone: u32) -> Result<(), AllocError>
        ensures ok { OnOk result (self.new ≡ map (deletions.fork_after gone) self.old) }
        ensures err { OnErr result (self.new ≡ self.old) }
    {
        let alloc = *self.items.allocator();
        let mut roots = all_roots(alloc, &self.items)?;
        leave_events(&mut roots, gone);
        self.roots = kinds(alloc, &roots)?;
        leave_all(&mut self.items, gone);
        Ok(())
    }

    /// The same forks in the same order.
    pub(crate) fn copy(&self) -> Result<Forks, AllocError>
        requires { IsDistinct bytes_eq (map (λ f. f.name) self.now) }
        ensures { IfOk result (λ s. s ≡ self.now) }
    {
        let alloc = *self.items.allocator();
        let items = copies(alloc, &self.items)?;
        let roots = kinds(alloc, &all_roots(alloc, &items)?)?;
        let names = self.names.copy()?;
        Ok(Forks {
            items,
            names,
            roots,
        })
    }
}

/// The forks' roots, in order.
fn all_roots(alloc: Global, forks: &[Fork]) -> Result<Vec<u32>, AllocError>
    ensures { IfOk result (λ v. v.items ≡ map (λ f. f.root) forks.now) }
{
    forks.iter().map(|fork| fork.root).collect(alloc)
}

/// The different events, in the order in which they first stand.
fn kinds(alloc: Global, events: &[u32]) -> Result<IndexSet<u32>, AllocError>
    ensures { IfOk result (λ s. s.keys ≡ kinds_after [] events.now) }
{
    let mut kinds = IndexSet::new(alloc);
    for event in events {
        kinds.insert(*event)?;
    }
    Ok(kinds)
}

fn is_event_of(net: u32, event: u32) -> bool
    ensures { result ≡ deletions.is_event_of net event }
{
    net == event / 2
}

/// Whether an event of the fork is of the net.
fn is_forked(net: u32, fork: &Fork) -> bool
    ensures { result ≡ deletions.is_forked net fork.now }
{
    is_event_of(net, fork.root) || is_event_of(net, fork.fast) || is_event_of(net, fork.slow)
}

fn leave_events(events: &mut [u32], gone: u32)
    ensures { events.new ≡ map (deletions.event_after gone) events.old }
{
    for event in events.iter_mut() {
        *event = event_after(gone, *event);
    }
}

fn leave_all(forks: &mut [Fork], gone: u32)
    ensures { forks.new ≡ map (deletions.fork_after gone) forks.old }
{
    for fork in forks.iter_mut() {
        fork.root = event_after(gone, fork.root);
        fork.fast = event_after(gone, fork.fast);
        fork.slow = event_after(gone, fork.slow);
    }
}

fn copies(alloc: Global, forks: &[Fork]) -> Result<Vec<Fork>, AllocError>
    ensures { IfOk result (λ v. v.items ≡ forks.now) }
{
    let mut copies = Vec::with_capacity(alloc, forks.len())?;
    for fork in forks {
        copies.push(fork.copy()?)?;
    }
    Ok(copies)
}
