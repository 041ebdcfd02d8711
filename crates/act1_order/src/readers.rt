ghost use Rattle.std.specs.Prelude.{ℕ, ◌≡◌, ◌<◌, ◌≤◌, ◌++◌, [], ◌∷◌, All, IfOk, OnOk, length, slice_index_or, slice_set};
ghost use Rattle.act1_order.specs.Order.{AreReads};
ghost use Rattle.act1_order.specs.ReadersSteps.{Adds, AreReaders, HasNone};

use crate::graph::reads_of;
use act1_base::{Items, Memory};
use std::alloc::Global;

// So many vertices with no readers.
fn no_readers(alloc: Global, vertices: usize) -> Result<Vec<Items<u16>>, Memory>
    ensures { IfOk result (λ readers. HasNone vertices readers.items) }
{
    let mut readers = Vec::new(alloc);
    for _vertex in 0..vertices {
        readers.push(Items::new(alloc))?;
    }
    Ok(readers)
}

// One more reader of a vertex.
fn add_reader(readers: &mut Vec<Items<u16>>, vertex: u16, reader: u16) -> Result<(), Memory>
    requires { vertex < length readers.old.items }
    ensures { OnOk result (readers.new.items ≡ slice_set readers.old.items vertex (slice_index_or readers.old.items vertex [] ++ reader ∷ [])) }
{
    readers[usize::from(vertex)].push(reader)
}

// One more reader of each of these vertices.
fn add_to_all(readers: &mut Vec<Items<u16>>, vertices: &[u16], reader: u16) -> Result<(), Memory>
    requires { All (λ vertex. vertex < length readers.old.items) vertices.now }
    ensures { OnOk result (Adds reader vertices.now readers.old.items readers.new.items) }
{
    for vertex in vertices {
        add_reader(readers, *vertex, reader)?;
    }
    Ok(())
}

/// For each vertex those that read it. It takes time and memory in proportion to the vertices and
/// edges.
pub fn readers_of(alloc: Global, reads: &[Items<u16>]) -> Result<Vec<Items<u16>>, Memory>
    requires few { length reads.now ≤ 65535 }
    requires inside { AreReads reads.now }
    ensures { IfOk result (λ readers. AreReaders reads.now readers.items) }
{
    let mut readers = no_readers(alloc, reads.len())?;
    for vertex in 0..reads.len() {
        add_to_all(&mut readers, reads_of(reads, vertex as u16), vertex as u16)?;
    }
    Ok(readers)
}
