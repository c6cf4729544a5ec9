//! The forks of a netlist as forks of its system.
ghost use Rattle.std.specs.Prelude.{◌≡◌, IfOk, map, take};
ghost use Rattle.event_expand.specs.Systems.{system_fork, system_forks};

use fork_slack::ForkOf;
use netlist_model::{Fork, Netlist};
use std::alloc::{AllocError, Global};

/// A fork of a netlist as a fork of its system.
fn system_fork(fork: &Fork) -> ForkOf
    ensures { result ≡ system_fork fork.now }
{
    ForkOf {
        root: fork.root,
        fast: fork.fast,
        slow: fork.slow,
        margin: fork.margin,
        offset: fork.offset,
    }
}

/// The forks of a netlist's system, in the netlist's order. `AllocError` only for want of memory.
pub fn forks_of(alloc: Global, net: &Netlist) -> Result<Vec<ForkOf>, AllocError>
    ensures { IfOk result (λ forks. forks.items ≡ system_forks net.now) }
{
    let mut forks = Vec::new(alloc);
    for at in 0..net.fork_count() {
        forks.push(system_fork(net.fork(at)))?;
    }
    Ok(forks)
}
