ghost use Rattle.std.specs.Prelude.{◌≡◌, ◌+◌, ◌*◌, IfOk, length};
ghost use Rattle.act1_map.specs.Least.{IsLeast, IsLeastOfNode};
ghost use Rattle.act1_map.specs.MapSteps.{AreLeastOf};

use crate::covers::cover_node;
use act1_base::Memory;
use act1_blif::{Blif, Node, netlists_are_whole};
use std::alloc::Global;

// How many tiles the least cover of a node has.
fn least_of_node(alloc: Global, node: &Node) -> Result<usize, Memory>
    ensures { IfOk result (IsLeastOfNode node.now) }
{
    Ok(cover_node(alloc, node)?.cover.tiles.len())
}

// The sum of two counts. One of 2^64 or more, which no memory holds, finds no memory.
fn sum(count: u64, more: usize) -> Result<u64, Memory>
    ensures { IfOk result (λ all. all ≡ count + more) }
{
    match count.checked_add(more as u64) {
        Some(all) => Ok(all),
        None => Err(Memory),
    }
}

// How many tiles the least covers of some nodes have.
fn least_of_nodes(alloc: Global, nodes: &[Node]) -> Result<u64, Memory>
    ensures { IfOk result (AreLeastOf nodes.now) }
{
    let mut count = 0;
    for node in nodes {
        count = sum(count, least_of_node(alloc, node)?)?;
    }
    Ok(count)
}

/// The least count of modules of a netlist: the fewest tiles of each cover's forest, and two modules for each
/// latch. It counts all nodes, also those that nothing reads; its outputs and the inputs of its latches don't
/// count. Each netlist has one such count, which is at most the literals of its covers and two for each latch
/// (`least_counts`).
///
/// A node's forest is dropped before the next one's is made. The one error is `Memory`.
pub fn least(alloc: Global, blif: &Blif) -> Result<u64, Memory>
    ensures { IfOk result (IsLeast blif.now) }
{
    netlists_are_whole();
    let count = least_of_nodes(alloc, blif.nodes.as_slice())?;
    sum(count, 2 * blif.latches.len())
}
