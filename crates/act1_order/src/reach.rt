ghost use Rattle.std.specs.Prelude.{ℕ, ◌≡◌, ◌<◌, ◌+◌, ◌↔◌, [], ◌∷◌, false, replicate, All, IsTrue, IfOk, OnOk, length, slice_get, slice_index_or, Some};
ghost use Rattle.act1_order.specs.Order.{AreReads, OnRing};
ghost use Rattle.act1_order.specs.ClosingSteps.{IsClosingOrder};
ghost use Rattle.act1_order.specs.Reach.{AreReachedFrom};
ghost use Rattle.act1_order.specs.ReadersSteps.{AreReaders};
ghost use Rattle.act1_order.specs.ReachSteps.{AreMarkedFrom, HasMarked, Marks};

use crate::graph::reads_of;
use act1_base::{Items, Memory};
use std::alloc::Global;

/// The vertices that a search back from some vertices has come to, which are marked, and those of them
/// whose readers it hasn't looked at.
#[derive(Drop)]
pub struct Reached {
    marks: Vec<bool>,
    left: Vec<u16>,
}

impl Reached {
    /// A search that has come to none of so many vertices.
    pub fn new(alloc: Global, vertices: usize) -> Result<Reached, Memory>
        ensures { IfOk result (λ s. (s.marks.items ≡ replicate vertices false) × (s.left.items ≡ [])) }
    {
        Ok(Reached {
            marks: vec![in alloc; false; vertices]?,
            left: Vec::new(alloc),
        })
    }

    // Whether a vertex is marked.
    fn is_marked(&self, vertex: u16) -> bool
        requires { vertex < length self.now.marks.items }
        ensures { slice_get self.now.marks.items vertex ≡ Some result }
    {
        self.marks[usize::from(vertex)]
    }

    // Marks a vertex, and leaves it to be looked at, unless it is marked already.
    fn mark(&mut self, vertex: u16) -> Result<(), Memory>
        requires { vertex < length self.old.marks.items }
        ensures { OnOk result (Marks (vertex ∷ []) self.old self.new) }
    {
        if !self.is_marked(vertex) {
            self.marks[usize::from(vertex)] = true;
            self.left.push(vertex)?;
        }
        Ok(())
    }

    // Marks some vertices.
    fn mark_all(&mut self, vertices: &[u16]) -> Result<(), Memory>
        requires { All (λ vertex. vertex < length self.old.marks.items) vertices.now }
        ensures { OnOk result (Marks vertices.now self.old self.new) }
    {
        for vertex in vertices {
            self.mark(*vertex)?;
        }
        Ok(())
    }

    // Whether one of these vertices is marked.
    fn has_marked(&self, vertices: &[u16]) -> bool
        requires { All (λ vertex. vertex < length self.now.marks.items) vertices.now }
        ensures { IsTrue result ↔ HasMarked self.now.marks.items vertices.now }
    {
        for vertex in vertices {
            if self.is_marked(*vertex) {
                return true;
            }
        }
        false
    }

    /// Whether the vertex at a place of a closing order lies on a ring, where the marked vertices are
    /// those that lead to one at a later place. From then on those that lead to it are marked too. It
    /// lies on a ring exactly where it reads one that leads to it or to one at a later place.
    pub fn is_on_ring(
        &mut self,
        reads: &[Items<u16>],
        readers: &[Items<u16>],
        order: &[u16],
        at: usize,
    ) -> Result<bool, Memory>
        requires inside { AreReads reads.now }
        requires readers { AreReaders reads.now readers.now }
        requires order { IsClosingOrder reads.now order.now }
        requires low { at < length order.now }
        requires marked { AreMarkedFrom reads.now order.now (at + 1) self.old }
        ensures marked { OnOk result (AreMarkedFrom reads.now order.now at self.new) }
        ensures on { IfOk result (λ on. IsTrue on ↔ OnRing reads.now (slice_index_or order.now at 0)) }
    {
        let vertex = order[at];
        self.mark(vertex)?;
        while let Some(next) = self.left.pop() {
            self.mark_all(reads_of(readers, next))?;
        }
        Ok(self.has_marked(reads_of(reads, vertex)))
    }
}

/// Which vertices some roots lead to: the roots, those that they read, those that these read, and so on.
/// `reads` has for each vertex the vertices that it reads, in any order and perhaps several times.
///
/// It takes time in proportion to the roots, vertices and edges, and memory in proportion to the
/// vertices. The one error is `Memory`.
pub fn reached_from(alloc: Global, reads: &[Items<u16>], roots: &[u16]) -> Result<Vec<bool>, Memory>
    requires inside { AreReads reads.now }
    requires roots { All (λ root. root < length reads.now) roots.now }
    ensures { IfOk result (λ marks. AreReachedFrom reads.now roots.now marks.items) }
{
    let mut reached = Reached::new(alloc, reads.len())?;
    reached.mark_all(roots)?;
    while let Some(next) = reached.left.pop() {
        reached.mark_all(reads_of(reads, next))?;
    }
    Ok(reached.marks)
}
