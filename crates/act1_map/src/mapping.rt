ghost use Rattle.std.specs.Prelude.{◌≡◌, ◌≤◌, ◌+◌, ◌*◌, ◌++◌, ◌∷◌, [], IfOk, OnOk, length};
ghost use Rattle.act1_blif.specs.Graph.{first_node, signal_count};
ghost use Rattle.act1_order.specs.Reach.{AreReachedFrom};
ghost use Rattle.act1_map.specs.CoverSteps.{AreCovered};
ghost use Rattle.act1_map.specs.Map.{HasLeastWithin, IsMapOf};
ghost use Rattle.act1_map.specs.MapSteps.{AreModules, AreNodeTiles, AreOutputs, AreTables, IsCircuitOf, net_reads, net_roots, slave_at, starts_from, tiles_from};
ghost use Rattle.act1_map.specs.Meaning.{IsNet};

use crate::covers::{Covered, covers_of};
use crate::laws::{least_counts, mapped_has_own_sources, mapped_is_small, mapped_means};
use crate::live::live_signals;
use crate::modules::{add_pairs, tile_modules};
use crate::numbers::{places_of, tiles_of};
use crate::sources::{slave_at, source_in, sources_of};
use crate::tiles::NodeTile;
use act1_base::{Items, Memory, Name, copy_of_name};
use act1_blif::{Latch, latch_names_differ, netlists_are_whole};
use act1_circuit::{Circuit, Output, Source, Start};
use act1_net::Net;
use std::alloc::Global;

// A copy of some names.
fn copy_of_names(alloc: Global, names: &[Name]) -> Result<Items<Name>, Memory>
    ensures { IfOk result (λ copy. copy ≡ names.now) }
{
    let mut copy = Items::new(alloc);
    for name in names {
        copy.push(name.clone()?)?;
    }
    Ok(copy)
}

// The outputs, with the sources of their terms.
fn outputs_of(alloc: Global, net: &Net, sources: &[Source]) -> Result<Items<Output>, Memory>
    requires net { IsNet net.now }
    requires all { length sources.now ≡ signal_count net.now.blif }
    ensures { IfOk result (AreOutputs net.now sources.now) }
{
    let names = net.names.as_slice();
    let terms = net.outputs.as_slice();
    let mut outputs = Items::new(alloc);
    for at in 0..terms.len() {
        outputs.push(Output {
            name: names[at].clone()?,
            source: source_in(sources, terms[at]),
        })?;
    }
    Ok(outputs)
}

// The start of each latch, at its slave. The pairs come after so many modules.
fn starts_of(alloc: Global, latches: &[Latch], tiles: usize) -> Result<Items<Start>, Memory>
    requires { tiles + 2 * length latches.now ≤ 65535 }
    ensures { IfOk result (λ starts. starts ≡ starts_from (slave_at tiles 0) latches.now) }
{
    let mut starts = Items::new(alloc);
    for at in 0..latches.len() {
        starts.push(Start {
            module: slave_at(tiles, at),
            init: latches[at].init,
            name: latches[at].name.clone()?,
        })?;
    }
    Ok(starts)
}

// The modules: one for each tile, and after them two for each latch.
fn modules_of(
    alloc: Global,
    net: &Net,
    covers: &[Covered],
    tiles: &[NodeTile],
    places: &[Items<u16>],
    sources: &[Source],
) -> Result<Items<[Source; 8]>, Memory>
    requires net { IsNet net.now }
    requires covers { AreCovered net.now.blif.nodes (length net.now.blif.nodes) covers.now }
    requires tiles { AreNodeTiles covers.now tiles.now }
    requires places { AreTables covers.now places.now }
    requires all { length sources.now ≡ signal_count net.now.blif }
    requires few { length tiles.now + 2 * length net.now.blif.latches ≤ 65535 }
    ensures { IfOk result (λ modules. AreModules net.now covers.now tiles.now places.now sources.now modules) }
{
    let mut modules = tile_modules(alloc, &net.blif, covers, tiles, places, sources)?;
    add_pairs(&mut modules, net.next.as_slice(), sources)?;
    Ok(modules)
}

// The circuit of these tiles and sources.
fn circuit_of(
    alloc: Global,
    net: &Net,
    covers: &[Covered],
    tiles: &[NodeTile],
    places: &[Items<u16>],
    sources: &[Source],
) -> Result<Circuit, Memory>
    requires net { IsNet net.now }
    requires covers { AreCovered net.now.blif.nodes (length net.now.blif.nodes) covers.now }
    requires tiles { AreNodeTiles covers.now tiles.now }
    requires places { AreTables covers.now places.now }
    requires all { length sources.now ≡ signal_count net.now.blif }
    requires few { length tiles.now + 2 * length net.now.blif.latches ≤ 65535 }
    ensures { IfOk result (IsCircuitOf net.now covers.now tiles.now places.now sources.now) }
{
    let modules = modules_of(alloc, net, covers, tiles, places, sources)?;
    let outputs = outputs_of(alloc, net, sources)?;
    let starts = starts_of(alloc, net.blif.latches.as_slice(), tiles.len())?;
    let inputs = copy_of_names(alloc, net.blif.inputs.as_slice())?;
    Ok(Circuit {
        clock: copy_of_name(&net.blif.clock)?,
        inputs,
        modules,
        outputs,
        starts,
    })
}

// The circuit of a net, by the tiles of its nodes that are read.
fn map_tiles(
    alloc: Global,
    net: &Net,
    covers: &[Covered],
    live: &[bool],
    tiles: &[NodeTile],
) -> Result<Circuit, Memory>
    requires net { IsNet net.now }
    requires outputs { length net.now.names ≤ 65535 }
    requires few { HasLeastWithin net.now.blif 65535 }
    requires covers { AreCovered net.now.blif.nodes (length net.now.blif.nodes) covers.now }
    requires live { AreReachedFrom (net_reads net.now covers.now) (net_roots net.now) live.now }
    requires tiles { tiles.now ≡ tiles_from live.now (first_node net.now.blif) 0 covers.now }
    ensures { IfOk result (IsMapOf net.now) }
{
    mapped_means();
    mapped_is_small();
    mapped_has_own_sources();
    least_counts();
    latch_names_differ();
    netlists_are_whole();
    let places = places_of(alloc, covers, tiles)?;
    let sources = sources_of(alloc, &net.blif, covers, &places, tiles.len())?;
    circuit_of(alloc, net, covers, tiles, &places, &sources)
}

/// The circuit of a net: a module for each tile of the least covers of the nodes that are read, and for each latch
/// a master and a slave. A node that is a constant, an input or another node's signal takes no module. It is in
/// pair form, means the net in every order in which its modules fire, and has at most the net's least count of
/// modules (`least`), each of which is the source of some pin or output.
///
/// Inputs, outputs and clock keep their names and order. Each latch has one start, at its slave. An output that is
/// an input of the net has that input as its source, and one that is a latch has the latch's slave.
///
/// The modules of the nodes come first, in the order of the nodes, and then the pairs of the latches in their order,
/// the master before the slave. Apart from the least covers the time is in proportion to the signals, the inputs of
/// nodes, the forks and the latches. The one error is `Memory`.
pub fn map(alloc: Global, net: &Net) -> Result<Circuit, Memory>
    requires terms { IsNet net.now }
    requires outputs { length net.now.names ≤ 65535 }
    requires few { HasLeastWithin net.now.blif 65535 }
    ensures { IfOk result (IsMapOf net.now) }
{
    netlists_are_whole();
    let covers = covers_of(alloc, net.blif.nodes.as_slice())?;
    let live = live_signals(alloc, net, &covers)?;
    let first = net.blif.inputs.len() + net.blif.latches.len();
    let tiles = tiles_of(alloc, &covers, &live, first)?;
    map_tiles(alloc, net, &covers, &live, &tiles)
}
