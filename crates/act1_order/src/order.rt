ghost use Rattle.std.specs.Prelude.{◌≡◌, length, ◌≤◌, IfOk, MatchOption};
ghost use Rattle.act1_order.specs.Order.{AreReads, IsFirstOnRing, IsOrder, Orders};
ghost use Rattle.act1_order.specs.ClosingSteps.{IsClosingOrder};
ghost use Rattle.act1_order.specs.ReachSteps.{least_with};

use crate::ordering::Ordering;
use crate::reach::Reached;
use crate::readers::readers_of;
use crate::search::order_of;
use crate::sorted::is_sorted;
use act1_base::{Items, Memory};
use std::alloc::Global;

// The least of the vertices found so far and one more, if that one lies on a ring.
fn least(found: Option<u16>, vertex: u16, is_on_ring: bool) -> Option<u16>
    ensures { result ≡ least_with found vertex is_on_ring }
{
    if !is_on_ring {
        return found;
    }
    match found {
        None => Some(vertex),
        Some(first) => Some(first.min(vertex)),
    }
}

// The least vertex on a ring, or none, where the vertices then stand after those that they read. The
// vertices are looked at from the last of a closing order to the first.
fn first_on_ring(alloc: Global, reads: &[Items<u16>], order: &[u16]) -> Result<Option<u16>, Memory>
    requires few { length reads.now ≤ 65535 }
    requires inside { AreReads reads.now }
    requires order { IsClosingOrder reads.now order.now }
    ensures { IfOk result (λ first. MatchOption first (IsOrder reads.now order.now) (IsFirstOnRing reads.now)) }
{
    let readers = readers_of(alloc, reads)?;
    let mut reached = Reached::new(alloc, reads.len())?;
    let mut first = None;
    let mut at = order.len();
    while at > 0 {
        at -= 1;
        let is_on_ring = reached.is_on_ring(reads, &readers, order, at)?;
        first = least(first, order[at], is_on_ring);
    }
    Ok(first)
}

/// An order of the vertices of a directed graph in which each stands after those that it reads, or
/// the least vertex on a ring. `reads` has for each vertex the vertices that it reads, in any order
/// and perhaps several times.
///
/// It takes time in proportion to the vertices and edges. The memory is in proportion to the vertices,
/// and where there is a ring, to the vertices and edges. The one error is `Memory`.
pub fn sources_first(alloc: Global, reads: &[Items<u16>]) -> Result<Ordering, Memory>
    requires few { length reads.now ≤ 65535 }
    requires inside { AreReads reads.now }
    ensures { IfOk result (Orders reads.now) }
{
    let order = order_of(alloc, reads)?;
    if is_sorted(alloc, reads, order.as_slice())? {
        return Ok(Ordering::Order(order));
    }
    match first_on_ring(alloc, reads, order.as_slice())? {
        None => unreachable!(),
        Some(vertex) => Ok(Ordering::Ring(vertex)),
    }
}
