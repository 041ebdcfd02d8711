ghost use Rattle.std.specs.Prelude.{ℕ, ◌≡◌, ◌<◌, ◌≤◌, ◌+◌, ◌*◌, [], All, IfOk, Some, length, slice_get, slice_index_or, slice_set};
ghost use Rattle.act1_blif.specs.declared.blif.Node.{Node};
ghost use Rattle.act1_blif.specs.Graph.{first_node, reads_of, signal_count};
ghost use Rattle.act1_order.specs.Order.{IsOrder};
ghost use Rattle.act1_net.specs.MarkSteps.{IsWithin};
ghost use Rattle.act1_map.specs.declared.covers.Covered.{Covered};
ghost use Rattle.act1_map.specs.CoverSteps.{AreCovered, AsksWithin, IsCovered};
ghost use Rattle.act1_map.specs.MapSteps.{AreSourced, AreSourcedAll, AreTables, HasEntry, given_sources, node_source, part_source, slave_at, source_in};

use crate::covers::Covered;
use act1_base::{Items, Memory};
use act1_blif::{Blif, Node, netlists_are_whole, order_of};
use act1_circuit::Source;
use act1_cover::Term;
use act1_net::NetTerm;
use std::alloc::Global;

/// The source of a term of a node's forest, by the sources of the signals, the node's inputs and the modules of
/// its forks.
pub fn part_source(inputs: &[u16], sources: &[Source], places: &[u16], term: Term) -> Source
    requires asks { AsksWithin (length inputs.now) term }
    requires inputs { All (λ signal. signal < length sources.now) inputs.now }
    requires entry { HasEntry (length places.now) term }
    ensures { result ≡ part_source sources.now inputs.now places.now term }
{
    match term {
        Term::Zero => Source::Zero,
        Term::One => Source::One,
        Term::Var(input) => sources[usize::from(inputs[usize::from(input)])],
        Term::Fork(fork) => Source::Module(places[fork as usize]),
    }
}

/// The source of a term of the net, by the sources of the signals.
pub fn source_in(sources: &[Source], term: NetTerm) -> Source
    requires { IsWithin (length sources.now) term }
    ensures { result ≡ source_in sources.now term }
{
    match term {
        NetTerm::Zero => Source::Zero,
        NetTerm::One => Source::One,
        NetTerm::Signal(signal) => sources[usize::from(signal)],
    }
}

/// The number of a latch's slave, where the pairs of the latches come after so many modules.
pub fn slave_at(tiles: usize, latch: usize) -> u16
    requires { slave_at tiles latch ≤ 65535 }
    ensures { result ≡ slave_at tiles latch }
{
    (tiles + 2 * latch + 1) as u16
}

// The sources of inputs and of latches, and nothing of the nodes.
fn given_sources(alloc: Global, blif: &Blif, tiles: usize) -> Result<Vec<Source>, Memory>
    requires { tiles + 2 * length blif.now.latches ≤ 65535 }
    ensures { IfOk result (λ sources. sources.items ≡ given_sources blif.now tiles) }
{
    netlists_are_whole();
    let mut sources = Vec::new(alloc);
    for input in 0..blif.inputs.len() {
        sources.push(Source::Input(input as u16))?;
    }
    for latch in 0..blif.latches.len() {
        sources.push(Source::Module(slave_at(tiles, latch)))?;
    }
    for _node in 0..blif.nodes.len() {
        sources.push(Source::Zero)?;
    }
    Ok(sources)
}

// The source of a node: that of the root of its forest.
fn node_source(node: &Node, covered: &Covered, sources: &[Source], places: &[u16]) -> Source
    requires covered { IsCovered node.now covered.now }
    requires width { node.now.cover.width ≡ length node.now.inputs }
    requires inputs { All (λ signal. signal < length sources.now) node.now.inputs }
    requires table { length places.now ≡ length covered.now.forest.forks }
    ensures { result ≡ part_source sources.now node.now.inputs places.now covered.now.forest.root }
{
    part_source(node.inputs.as_slice(), sources, places, covered.forest.root)
}

// Writes the source of a signal, where it is a node.
fn write_source(
    blif: &Blif,
    covers: &[Covered],
    places: &[Items<u16>],
    signal: usize,
    sources: &mut Vec<Source>,
)
    requires covers { AreCovered blif.now.nodes (length blif.now.nodes) covers.now }
    requires places { AreTables covers.now places.now }
    requires all { length sources.old.items ≡ signal_count blif.now }
    requires low { signal < signal_count blif.now }
    ensures given { signal < first_node blif.now → sources.new.items ≡ sources.old.items }
    ensures node { (i : ℕ) (node : Node) (c : Covered) → signal ≡ first_node blif.now + i → slice_get blif.now.nodes i ≡ Some node → slice_get covers.now i ≡ Some c
        → sources.new.items ≡ slice_set sources.old.items signal (node_source sources.old.items places.now i node c) }
{
    netlists_are_whole();
    let first = blif.inputs.len() + blif.latches.len();
    if signal < first {
        return;
    }
    let at = signal - first;
    let node = &blif.nodes.as_slice()[at];
    let source = node_source(node, &covers[at], sources, places[at].as_slice());
    sources[signal] = source;
}

/// The source of each signal: that of an input is the input, that of a latch its slave, and that of a node what
/// its root is: a constant, the source of an input of the node, or the module of a fork. The pairs of the latches
/// come after so many modules. The source of a node that isn't read says nothing. It takes time and memory in
/// proportion to the signals and the inputs of nodes. The one error is `Memory`.
pub fn sources_of(
    alloc: Global,
    blif: &Blif,
    covers: &[Covered],
    places: &[Items<u16>],
    tiles: usize,
) -> Result<Vec<Source>, Memory>
    requires covers { AreCovered blif.now.nodes (length blif.now.nodes) covers.now }
    requires places { AreTables covers.now places.now }
    requires few { tiles + 2 * length blif.now.latches ≤ 65535 }
    ensures { IfOk result (λ sources. AreSourcedAll blif.now covers.now places.now tiles sources.items) }
{
    netlists_are_whole();
    let order = order_of(alloc, blif)?;
    let mut sources = given_sources(alloc, blif, tiles)?;
    for signal in order.as_slice() {
        write_source(blif, covers, places, usize::from(*signal), &mut sources);
    }
    Ok(sources)
}
