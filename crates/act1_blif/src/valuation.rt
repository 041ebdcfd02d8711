ghost use Rattle.std.specs.Prelude.{ℕ, Some, OnOk, slice_get, slice_set, ◌≡◌, ◌<◌, ◌≤◌, ◌+◌, ◌++◌, [], All, length, map, replicate, false, IfOk, slice_index_or};
ghost use Rattle.act1_order.specs.Order.{IsOrder};
ghost use Rattle.act1_blif.specs.Run.{Fits, node_value};
ghost use Rattle.act1_blif.specs.declared.blif.Node.{Node};
ghost use Rattle.act1_blif.specs.Graph.{first_node, reads_of};
ghost use Rattle.act1_blif.specs.ValuationSteps.{AreEvaluated};

use crate::blif::{Blif, Node};
use act1_base::{Items, Memory};
use act1_logic::cover_value;
use act1_order::{Ordering, sources_first};
use std::alloc::Global;

// For each signal those that it reads at once: a node reads its inputs.
fn reads_of(alloc: Global, blif: &Blif) -> Result<Vec<Items<u16>>, Memory>
    ensures { IfOk result (λ reads. reads.items ≡ reads_of blif.now) }
{
    let mut reads = Vec::new(alloc);
    for _signal in 0..blif.inputs.len() + blif.latches.len() {
        reads.push(Items::new(alloc))?;
    }
    for node in blif.nodes.as_slice() {
        reads.push(Items::from_slice(alloc, node.inputs.as_slice())?)?;
    }
    Ok(reads)
}

/// The signals in an order in which each stands after those that it reads at once: a node reads its
/// inputs, and inputs and latches read none. No signal lies on a ring, by the invariant of a netlist.
///
/// It takes time and memory in proportion to the signals and the inputs of nodes. The one error is
/// `Memory`.
pub fn order_of(alloc: Global, blif: &Blif) -> Result<Items<u16>, Memory>
    ensures { IfOk result (IsOrder (reads_of blif.now)) }
{
    let reads = reads_of(alloc, blif)?;
    match sources_first(alloc, &reads)? {
        Ordering::Order(order) => Ok(order),
        Ordering::Ring(_) => unreachable!(),
    }
}

// The values of inputs and latches, and after them one for each node.
fn given_values(
    alloc: Global,
    inputs: &[bool],
    state: &[bool],
    nodes: usize,
) -> Result<Vec<bool>, Memory>
    ensures { IfOk result (λ values. values.items ≡ inputs.now ++ state.now ++ replicate nodes false) }
{
    let mut values = Vec::from_slice(alloc, inputs)?;
    values.extend_from_slice(state)?;
    for _node in 0..nodes {
        values.push(false)?;
    }
    Ok(values)
}

// What a node gives at these values of the signals.
fn node_value(alloc: Global, node: &Node, values: &[bool]) -> Result<bool, Memory>
    requires width { node.now.cover.width ≡ length node.now.inputs }
    requires inside { All (λ s. s < length values.now) node.now.inputs }
    ensures { IfOk result (λ value. value ≡ node_value values.now node.now) }
{
    let mut own = Vec::new(alloc);
    for signal in node.inputs.as_slice() {
        own.push(values[usize::from(*signal)])?;
    }
    Ok(cover_value(&node.cover, &own))
}

// Puts the value of a signal into its place, where it is a node's.
fn evaluate(alloc: Global, blif: &Blif, signal: usize, values: &mut Vec<bool>) -> Result<(), Memory>
    requires all { length values.old.items ≡ first_node blif.now + length blif.now.nodes }
    requires low { signal < first_node blif.now + length blif.now.nodes }
    ensures given { signal < first_node blif.now → OnOk result (values.new.items ≡ values.old.items) }
    ensures node { (j : ℕ) (node : Node) → signal ≡ first_node blif.now + j → slice_get blif.now.nodes j ≡ Some node → OnOk result (values.new.items ≡ slice_set values.old.items signal (node_value values.old.items node)) }
{
    let first = blif.inputs.len() + blif.latches.len();
    if signal < first {
        return Ok(());
    }
    let node = &blif.nodes.as_slice()[signal - first];
    let value = node_value(alloc, node, values)?;
    values[signal] = value;
    Ok(())
}

/// The value of each signal at these values of the inputs and of the latches: inputs, latches and
/// nodes in the order of their numbers. Each node has the value of its cover at the values of its own
/// inputs, and there is one such valuation (`one_valuation`).
///
/// The nodes are evaluated once each, those that a node reads before it. Apart from the rows of
/// covers the time is in proportion to the signals and the inputs of nodes. The one error is `Memory`.
pub fn values(
    alloc: Global,
    blif: &Blif,
    inputs: &[bool],
    state: &[bool],
) -> Result<Vec<bool>, Memory>
    requires inputs { length inputs.now ≡ length blif.now.inputs }
    requires state { length state.now ≡ length blif.now.latches }
    ensures { IfOk result (λ values. Fits blif.now state.now inputs.now values.items) }
{
    let order = order_of(alloc, blif)?;
    let mut values = given_values(alloc, inputs, state, blif.nodes.len())?;
    for signal in order.as_slice() {
        evaluate(alloc, blif, usize::from(*signal), &mut values)?;
    }
    Ok(values)
}
