//! The order of the sessions' entries, filled in at their places.
ghost use Rattle.std.specs.Prelude.{◌≡◌, ◌<◌, ◌≤◌, List, length, map, replicate, IfOk};
ghost use Rattle.std.specs.List.{All};
ghost use Rattle.session_run.specs.Filled.{put_all, IsPlaced, total};
ghost use Rattle.session_run.specs.Items.{Item, session_of};

use super::ran::Ran;
use crate::served::{Order, ReplyLists};
use session_machine::Replies;
use std::alloc::{AllocError, Global};

/// Writes the number at the places.
fn fill(order: &mut [u16], places: &[u64], number: u16)
    requires { All (λ p. p < length order.old) places.now }
    ensures { order.new ≡ put_all number places.now order.old }
{
    for place in places {
        order[*place as usize] = number;
    }
}

/// A place for each entry.
fn empty_order(alloc: Global, rans: &[Ran]) -> Result<Vec<u16>, AllocError>
    ensures { IfOk result (λ v. v.items ≡ replicate (total rans.now) 0) }
{
    let mut count = 0usize;
    for ran in rans {
        let Some(more) = count.checked_add(ran.places.as_slice().len()) else {
            return Err(AllocError);
        };
        count = more;
    }
    vec![in alloc; 0; count]
}

/// The numbers of the sessions, in the order of their entries.
pub(crate) fn order_of(alloc: Global, rans: &[Ran]) -> Result<Order, AllocError>
    requires few { length rans.now ≤ 32 }
    requires placed { (seen : List Item) × IsPlaced rans.now seen }
    ensures { (seen : List Item) → IsPlaced rans.now seen → IfOk result (λ o. o ≡ map session_of seen) }
{
    let mut order = empty_order(alloc, rans)?;
    let mut number = 0;
    for ran in rans {
        number += 1;
        fill(order.as_mut_slice(), ran.places.as_slice(), number);
    }
    Ok(Order::of(order))
}

/// The replies of the sessions.
pub(crate) fn replies_of(alloc: Global, rans: Vec<Ran>) -> Result<ReplyLists, AllocError>
    ensures { IfOk result (λ r. r ≡ map (λ r. r.replies.items) rans.items) }
{
    let mut all = Vec::with_capacity(alloc, rans.len())?;
    for ran in rans {
        let Ran { replies, places: _ } = ran;
        all.push_reserved(Replies::of(replies));
    }
    Ok(ReplyLists::of(all))
}
