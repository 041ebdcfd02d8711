ghost use Rattle.std.specs.Prelude.{ℕ, ◌≡◌, ◌<◌, ◌≤◌, ◌+◌, ◌*◌, ◌++◌, [], All, IfOk, OnOk, Some, length, slice_get, slice_index_or};
ghost use Rattle.act1_blif.specs.declared.blif.Node.{Node};
ghost use Rattle.act1_blif.specs.Graph.{signal_count};
ghost use Rattle.act1_cover.specs.Tilings.{MayStand};
ghost use Rattle.act1_net.specs.MarkSteps.{IsWithin};
ghost use Rattle.act1_net.specs.Net.{AreWithin};
ghost use Rattle.act1_map.specs.declared.covers.Covered.{Covered};
ghost use Rattle.act1_map.specs.CoverSteps.{AreCovered, IsCovered};
ghost use Rattle.act1_map.specs.MapSteps.{AreModules, AreNodeTiles, AreTables, AreTileModules, StandsAt, latch_modules, pair_modules, source_in, tile_pins_by, tile_sources};

use crate::covers::Covered;
use crate::pins::tile_pins;
use crate::sources::{part_source, source_in};
use crate::tiles::NodeTile;
use act1_base::{Items, Memory};
use act1_blif::{Blif, Node, netlists_are_whole};
use act1_circuit::Source;
use act1_cover::Tile;
use act1_net::NetTerm;
use std::alloc::Global;

// The sources of the pins of a tile.
fn tile_sources(
    node: &Node,
    covered: &Covered,
    tile: Tile,
    sources: &[Source],
    places: &[u16],
) -> [Source; 8]
    requires covered { IsCovered node.now covered.now }
    requires width { node.now.cover.width ≡ length node.now.inputs }
    requires inputs { All (λ signal. signal < length sources.now) node.now.inputs }
    requires table { length places.now ≡ length covered.now.forest.forks }
    requires stands { MayStand covered.now.forest tile.fork tile.shape }
    ensures { result ≡ tile_pins_by sources.now node.now.inputs places.now covered.now.forest tile }
{
    let inputs = node.inputs.as_slice();
    let pins = tile_pins(&covered.forest, tile);
    [
        part_source(inputs, sources, places, pins[0]),
        part_source(inputs, sources, places, pins[1]),
        part_source(inputs, sources, places, pins[2]),
        part_source(inputs, sources, places, pins[3]),
        part_source(inputs, sources, places, pins[4]),
        part_source(inputs, sources, places, pins[5]),
        part_source(inputs, sources, places, pins[6]),
        part_source(inputs, sources, places, pins[7]),
    ]
}

// The module of a tile.
fn module_of(
    blif: &Blif,
    covers: &[Covered],
    tile: NodeTile,
    places: &[Items<u16>],
    sources: &[Source],
) -> [Source; 8]
    requires covers { AreCovered blif.now.nodes (length blif.now.nodes) covers.now }
    requires stands { StandsAt covers.now tile }
    requires places { AreTables covers.now places.now }
    requires all { length sources.now ≡ signal_count blif.now }
    ensures { (node : Node) (c : Covered) → slice_get blif.now.nodes tile.node ≡ Some node → slice_get covers.now tile.node ≡ Some c → result ≡ tile_sources sources.now places.now tile node c }
{
    netlists_are_whole();
    let at = usize::from(tile.node);
    let node = &blif.nodes.as_slice()[at];
    tile_sources(node, &covers[at], tile.tile, sources, places[at].as_slice())
}

/// A module for each tile. The one error is `Memory`.
pub fn tile_modules(
    alloc: Global,
    blif: &Blif,
    covers: &[Covered],
    tiles: &[NodeTile],
    places: &[Items<u16>],
    sources: &[Source],
) -> Result<Items<[Source; 8]>, Memory>
    requires covers { AreCovered blif.now.nodes (length blif.now.nodes) covers.now }
    requires tiles { AreNodeTiles covers.now tiles.now }
    requires places { AreTables covers.now places.now }
    requires all { length sources.now ≡ signal_count blif.now }
    ensures { IfOk result (λ modules. AreTileModules blif.now.nodes covers.now places.now sources.now tiles.now (length tiles.now) modules) }
{
    let mut modules = Items::new(alloc);
    for tile in tiles {
        modules.push(module_of(blif, covers, *tile, places, sources))?;
    }
    Ok(modules)
}

// The two modules of a latch that takes this source go last: the master, which follows it while the clock is 0,
// and the slave, which follows the master while the clock is 1. Else each holds its own bit.
fn add_pair(modules: &mut Items<[Source; 8]>, takes: Source) -> Result<(), Memory>
    requires { length modules.old + 1 ≤ 65535 }
    ensures { OnOk result (modules.new ≡ modules.old ++ pair_modules takes (length modules.old)) }
{
    let zero = Source::Zero;
    let clock = Source::Clock;
    let master = Source::Module(modules.len() as u16);
    let slave = Source::Module(modules.len() as u16 + 1);
    modules.push([takes, zero, zero, master, zero, zero, clock, zero])?;
    modules.push([slave, zero, zero, master, zero, zero, clock, zero])
}

/// Two modules for each latch, which takes one of these terms, go last. The one error is `Memory`.
pub fn add_pairs(
    modules: &mut Items<[Source; 8]>,
    next: &[NetTerm],
    sources: &[Source],
) -> Result<(), Memory>
    requires within { AreWithin (length sources.now) next.now }
    requires few { length modules.old + 2 * length next.now ≤ 65535 }
    ensures { OnOk result (modules.new ≡ modules.old ++ latch_modules sources.now (length modules.old) next.now) }
{
    for takes in next {
        add_pair(modules, source_in(sources, *takes))?;
    }
    Ok(())
}
