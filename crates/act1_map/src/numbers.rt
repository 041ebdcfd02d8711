ghost use Rattle.std.specs.Prelude.{ℕ, ◌≡◌, ◌<◌, ◌≤◌, ◌+◌, ◌++◌, false, IfOk, OnOk, Some, length, map, slice_get, slice_index_or, slice_set, []};
ghost use Rattle.act1_map.specs.MapSteps.{AreNodeTiles, ArePlaced, AreTables, at_node, tiles_from, tiles_if};

use crate::covers::Covered;
use crate::tiles::NodeTile;
use act1_base::{Items, Memory};
use act1_cover::Tile;
use std::alloc::Global;

// The tiles of a node go last.
fn add_tiles(tiles: &mut Vec<NodeTile>, node: u16, own: &[Tile]) -> Result<(), Memory>
    ensures { OnOk result (tiles.new.items ≡ tiles.old.items ++ map (at_node node) own.now) }
{
    for tile in own {
        tiles.push(NodeTile { node, tile: *tile })?;
    }
    Ok(())
}

// The tiles of a node go last, if it is read.
fn add_node(
    tiles: &mut Vec<NodeTile>,
    node: u16,
    covered: &Covered,
    is_live: bool,
) -> Result<(), Memory>
    ensures { OnOk result (tiles.new.items ≡ tiles.old.items ++ tiles_if is_live node covered.now) }
{
    if !is_live {
        return Ok(());
    }
    add_tiles(tiles, node, covered.cover.tiles.as_slice())
}

/// The tiles of the nodes that are read, in the order of their modules. The nodes are the signals from `first`
/// on. The one error is `Memory`.
pub fn tiles_of(
    alloc: Global,
    covers: &[Covered],
    live: &[bool],
    first: usize,
) -> Result<Vec<NodeTile>, Memory>
    requires few { length live.now ≤ 65535 }
    requires all { length live.now ≡ first + length covers.now }
    ensures { IfOk result (λ tiles. tiles.items ≡ tiles_from live.now first 0 covers.now) }
{
    let mut tiles = Vec::new(alloc);
    for node in 0..covers.len() {
        add_node(&mut tiles, node as u16, &covers[node], live[first + node])?;
    }
    Ok(tiles)
}

// A table with an entry for each fork of a node.
fn table_of(alloc: Global, covered: &Covered) -> Result<Items<u16>, Memory>
    ensures { IfOk result (λ table. length table ≡ length covered.now.forest.forks) }
{
    Ok(Items::from_vec(vec![in alloc; 0; covered.forest.forks.len()]?))
}

// A table for each node.
fn tables_of(alloc: Global, covers: &[Covered]) -> Result<Vec<Items<u16>>, Memory>
    ensures { IfOk result (λ tables. AreTables covers.now tables.items) }
{
    let mut tables = Vec::new(alloc);
    for covered in covers {
        tables.push(table_of(alloc, covered)?)?;
    }
    Ok(tables)
}

// Writes the module of a tile into the table of its node.
fn write_place(tables: &mut Vec<Items<u16>>, tile: NodeTile, number: u16)
    requires node { tile.node < length tables.old.items }
    requires fork { tile.tile.fork < length (slice_index_or tables.old.items tile.node []) }
    ensures { tables.new.items ≡ slice_set tables.old.items tile.node (slice_set (slice_index_or tables.old.items tile.node []) tile.tile.fork number) }
{
    tables[usize::from(tile.node)].set(tile.tile.fork as usize, number);
}

/// For each node the modules of its forks at which tiles stand, by the numbers of the forks. The other entries
/// say nothing. It takes time and memory in proportion to forks and tiles. The one error is `Memory`.
pub fn places_of(
    alloc: Global,
    covers: &[Covered],
    tiles: &[NodeTile],
) -> Result<Vec<Items<u16>>, Memory>
    requires tiles { AreNodeTiles covers.now tiles.now }
    requires few { length tiles.now ≤ 65535 }
    ensures { IfOk result (λ places. ArePlaced covers.now tiles.now (length tiles.now) places.items) }
{
    let mut tables = tables_of(alloc, covers)?;
    for number in 0..tiles.len() {
        write_place(&mut tables, tiles[number], number as u16);
    }
    Ok(tables)
}
