ghost use Rattle.std.specs.Prelude.{IfOk, length};
ghost use Rattle.act1_map.specs.CoverSteps.{AreCovered, IsCovered};

use act1_base::Memory;
use act1_blif::Node;
use act1_cover::{Forest, Tiles, forest_of, least_cover};
use std::alloc::Global;

/// The forest of a node's cover, and a tiling of it with the fewest tiles.
#[derive(Debug, Drop)]
pub struct Covered {
    /// The forest.
    pub forest: Forest,
    /// The tiles, rising by their forks.
    pub cover: Tiles,
}

/// The forest and the tiles of a node. The one error is `Memory`.
pub fn cover_node(alloc: Global, node: &Node) -> Result<Covered, Memory>
    ensures { IfOk result (IsCovered node.now) }
{
    let forest = forest_of(alloc, &node.cover)?;
    let cover = least_cover(alloc, &forest)?;
    Ok(Covered { forest, cover })
}

/// The forests and the tiles of some nodes, in order. The one error is `Memory`.
pub fn covers_of(alloc: Global, nodes: &[Node]) -> Result<Vec<Covered>, Memory>
    ensures { IfOk result (λ covers. AreCovered nodes.now (length nodes.now) covers.items) }
{
    let mut covers = Vec::new(alloc);
    for node in nodes {
        covers.push(cover_node(alloc, node)?)?;
    }
    Ok(covers)
}
