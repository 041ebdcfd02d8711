ghost use Rattle.std.specs.Prelude.{◌≡◌, ◌<◌, ◌≤◌, ◌+◌, ◌++◌, [], codes, length, IfOk, OnOk, IsTrue};
ghost use Rattle.act1_blif.specs.Rules.{HasLevels, is_blif};
ghost use Rattle.act1_circuit.specs.Range.{InRange};
ghost use Rattle.act1_extract.specs.Layout.{IsLayout};
ghost use Rattle.act1_extract.specs.Net.{AreNodes, IsExtractable, IsNetOf};
ghost use Rattle.act1_extract.specs.Parts.{free_names};

use crate::latches::latches_of;
use crate::layout::layout_of;
use crate::names::free_names;
use crate::nodes::{add_constant, module_nodes};
use crate::outputs::{output_nodes, output_signals};
use crate::plan::Layout;
use act1_base::{Items, Memory, Name, copy_of_name};
use act1_blif::{Blif, Latch, Node};
use act1_circuit::Circuit;
use act1_order::rings_and_levels;
use std::alloc::Global;

// Adds nodes.
fn add_all(nodes: &mut Items<Node>, more: Items<Node>) -> Result<(), Memory>
    ensures { OnOk result (nodes.new ≡ nodes.old ++ more) }
{
    for node in more.into_vec() {
        nodes.push(node)?;
    }
    Ok(())
}

// The nodes: those of modules, of constants and of outputs.
fn nodes_of(
    alloc: Global,
    circuit: &Circuit,
    layout: &Layout,
    names: &[Name],
) -> Result<Items<Node>, Memory>
    requires layout { IsLayout circuit.now layout.now }
    requires modules { length circuit.now.modules ≤ 2048 }
    requires named { layout.now.outside + 2 ≤ length names.now }
    ensures { IfOk result (AreNodes circuit.now layout.now names.now) }
{
    let signals = layout.signals.as_slice();
    let mut nodes = module_nodes(alloc, circuit, signals, names)?;
    add_constant(alloc, &mut nodes, names, layout.has_zero, false)?;
    add_constant(alloc, &mut nodes, names, layout.has_one, true)?;
    let more = output_nodes(alloc, circuit, signals)?;
    add_all(&mut nodes, more)?;
    Ok(nodes)
}

// Copies of some names.
fn copies_of(alloc: Global, names: &[Name]) -> Result<Items<Name>, Memory>
    ensures { IfOk result (λ copies. copies ≡ names.now) }
{
    let mut copies = Items::new(alloc);
    for name in names {
        copies.push(name.clone()?)?;
    }
    Ok(copies)
}

// The netlist of these parts.
fn assembled(
    model: Name,
    clock: Option<Name>,
    inputs: Items<Name>,
    latches: Items<Latch>,
    nodes: Items<Node>,
    outputs: Items<u16>,
) -> Blif
    requires valid { IsTrue (is_blif model clock inputs latches nodes outputs) }
    requires acyclic { ∥ HasLevels inputs latches nodes ∥₁ }
    ensures model { result.model ≡ model }
    ensures clock { result.clock ≡ clock }
    ensures inputs { result.inputs ≡ inputs }
    ensures latches { result.latches ≡ latches }
    ensures nodes { result.nodes ≡ nodes }
    ensures outputs { result.outputs ≡ outputs }
{
    Blif {
        model,
        clock,
        inputs,
        latches,
        nodes,
        outputs,
    }
}

// Names below this number are enough for the nodes of modules and of two constants.
fn name_limit(circuit: &Circuit, layout: &Layout) -> u64
    requires inputs { length circuit.now.inputs ≤ 2112 }
    requires outputs { length circuit.now.outputs ≤ 2112 }
    requires starts { length circuit.now.starts ≤ 2048 }
    requires outside { layout.now.outside ≤ 2048 }
    ensures { result ≡ length circuit.now.inputs + length circuit.now.outputs + length circuit.now.starts + layout.now.outside + 3 }
{
    let ports = circuit.inputs.len() + circuit.outputs.len();
    (ports + circuit.starts.len() + layout.outside + 3) as u64
}

/// The netlist that a circuit in pair form is extracted to.
pub fn net_of(alloc: Global, circuit: &Circuit) -> Result<Blif, Memory>
    requires { IsExtractable circuit.now }
    ensures { IfOk result (IsNetOf circuit.now) }
{
    rings_and_levels();
    let layout = layout_of(alloc, circuit)?;
    let names = free_names(alloc, circuit, name_limit(circuit, &layout))?;
    let nodes = nodes_of(alloc, circuit, &layout, names.as_slice())?;
    let latches = latches_of(alloc, circuit, &layout)?;
    let outputs = output_signals(alloc, circuit, layout.signals.as_slice(), layout.outputs_at)?;
    let inputs = copies_of(alloc, circuit.inputs.as_slice())?;
    let clock = copy_of_name(&circuit.clock)?;
    let model = Name::new(alloc, b"array")?;
    Ok(assembled(model, clock, inputs, latches, nodes, outputs))
}
