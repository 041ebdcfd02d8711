ghost use Rattle.std.specs.Prelude.{ℕ, ◌≡◌, ◌<◌, ◌↔◌, All, Contains, IfOk, IsTrue, Some, length, slice_get};
ghost use Rattle.act1_order.specs.Order.{AreReads, IsOrder};
ghost use Rattle.act1_order.specs.ClosingSteps.{IsClosingOrder};
ghost use Rattle.act1_order.specs.ReachSteps.{IsMarked};

use crate::graph::reads_of;
use act1_base::{Items, Memory};
use std::alloc::Global;

// Whether a vertex is marked.
fn is_marked(marks: &[bool], vertex: u16) -> bool
    requires { vertex < length marks.now }
    ensures { slice_get marks.now vertex ≡ Some result }
{
    marks[usize::from(vertex)]
}

// Whether all of these vertices are marked.
fn are_marked(marks: &[bool], vertices: &[u16]) -> bool
    requires { All (λ vertex. vertex < length marks.now) vertices.now }
    ensures { IsTrue result ↔ ((w : ℕ) → Contains vertices.now w → IsMarked marks.now w) }
{
    for vertex in vertices {
        if !is_marked(marks, *vertex) {
            return false;
        }
    }
    true
}

/// Whether in a closing order each vertex stands after those that it reads. It takes time in
/// proportion to the vertices and edges, and memory in proportion to the vertices.
pub fn is_sorted(alloc: Global, reads: &[Items<u16>], order: &[u16]) -> Result<bool, Memory>
    requires inside { AreReads reads.now }
    requires order { IsClosingOrder reads.now order.now }
    ensures { IfOk result (λ sorted. IsTrue sorted ↔ IsOrder reads.now order.now) }
{
    let mut placed = vec![in alloc; false; reads.len()]?;
    for vertex in order {
        if !are_marked(&placed, reads_of(reads, *vertex)) {
            return Ok(false);
        }
        placed[usize::from(*vertex)] = true;
    }
    Ok(true)
}
