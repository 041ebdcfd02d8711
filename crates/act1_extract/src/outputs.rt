ghost use Rattle.std.specs.Prelude.{◌≡◌, ◌<◌, ◌≤◌, ◌+◌, ◌&&◌, ◌==◌, ◌++◌, ◌∷◌, [], Bool, List, length, map, false, true, slice_index_or, IfOk, OnOk};
ghost use Rattle.std.specs.List.{list_any};
ghost use Rattle.std.specs.Str.{bytes_eq};
ghost use Rattle.act1_circuit.specs.declared.circuit.Output.{Output as CircuitOutput};
ghost use Rattle.act1_circuit.specs.declared.circuit.Start.{Start as CircuitStart};
ghost use Rattle.act1_meaning.specs.Extracted.{first_bit};
ghost use Rattle.act1_meaning.specs.ArrayNames.{has_name, is_own_signal};
ghost use Rattle.act1_extract.specs.Layout.{found_signal};
ghost use Rattle.act1_extract.specs.Parts.{constant_of};
ghost use Rattle.act1_extract.specs.Picked.{AddsOutput, ArePicked, IsNode, IsOutNode, IsOutputNode, has_node, output_signals};

use crate::covers::{constant_cover, copy_cover};
use crate::layout::found_signal;
use act1_base::{Items, Memory, Name};
use act1_blif::Node;
use act1_circuit::{Circuit, Output, Source, Start};
use std::alloc::Global;

// The name of an input, or no bytes past the last one.
fn input_name(inputs: &[Name], input: u16) -> &[u8]
    ensures { result.now ≡ slice_index_or inputs.now input [] }
{
    match inputs.get(usize::from(input)) {
        Some(name) => name.as_bytes(),
        None => b"",
    }
}

// Whether the input has this name. One that isn't there has the empty name.
fn is_input_name(inputs: &[Name], input: u16, name: &[u8]) -> bool
    ensures { result ≡ bytes_eq (slice_index_or inputs.now input []) name.now }
{
    input_name(inputs, input) == name
}

// Whether some start at the module has this name.
fn is_latch_name(starts: &[Start], module: u16, name: &[u8]) -> bool
    ensures { result ≡ list_any (λ (s : CircuitStart). s.«module» == «module» && bytes_eq s.name name.now) starts.now }
{
    starts.iter().any(|start| start.module == module && start.name.as_bytes() == name)
}

/// Whether the output's source has the output's name.
pub fn is_own_signal(circuit: &Circuit, output: &Output) -> bool
    ensures { result ≡ is_own_signal circuit.now output.now }
{
    let name = output.name.as_bytes();
    match output.source {
        Source::Zero => false,
        Source::One => false,
        Source::Clock => false,
        Source::Input(input) => is_input_name(circuit.inputs.as_slice(), input, name),
        Source::Module(module) => is_latch_name(circuit.starts.as_slice(), module, name),
    }
}

// The node of a constant output.
fn constant_output(alloc: Global, name: &Name, value: bool) -> Result<Node, Memory>
    ensures { IfOk result (IsNode name.now [] (constant_of value)) }
{
    let cover = constant_cover(alloc, value)?;
    Ok(Node {
        name: name.clone()?,
        inputs: Items::new(alloc),
        cover,
    })
}

// The node of an output that is a copy of a signal.
fn copy_output(alloc: Global, name: &Name, signal: u16) -> Result<Node, Memory>
    ensures { IfOk result (IsNode name.now (signal ∷ []) first_bit) }
{
    let cover = copy_cover(alloc)?;
    let mut inputs = Items::new(alloc);
    inputs.push(signal)?;
    Ok(Node {
        name: name.clone()?,
        inputs,
        cover,
    })
}

// The node of an output.
fn output_node(alloc: Global, signals: &[u16], output: &Output) -> Result<Node, Memory>
    ensures { IfOk result (IsOutNode signals.now output.now.name output.now.source) }
{
    match output.source {
        Source::Zero => constant_output(alloc, &output.name, false),
        Source::One => constant_output(alloc, &output.name, true),
        Source::Clock => constant_output(alloc, &output.name, false),
        Source::Input(_) => {
            copy_output(alloc, &output.name, found_signal(signals, output.source))
        }
        Source::Module(_) => {
            copy_output(alloc, &output.name, found_signal(signals, output.source))
        }
    }
}

// Adds the node of an output, if it has one.
#[tactic(auto, using(crate::proofs::Steps::node_of_output, crate::proofs::Steps::none_of_output))]
fn add_output(
    alloc: Global,
    nodes: &mut Items<Node>,
    circuit: &Circuit,
    signals: &[u16],
    output: &Output,
) -> Result<(), Memory>
    ensures { OnOk result (AddsOutput circuit.now signals.now output.now nodes.old nodes.new) }
{
    if is_own_signal(circuit, output) {
        return Ok(());
    }
    nodes.push(output_node(alloc, signals, output)?)?;
    Ok(())
}

/// The nodes of the outputs that have one, in the order of the outputs.
#[tactic(auto, using(crate::proofs::Steps::output_added))]
pub fn output_nodes(
    alloc: Global,
    circuit: &Circuit,
    signals: &[u16],
) -> Result<Items<Node>, Memory>
    ensures { IfOk result (ArePicked (has_node circuit.now) (length circuit.now.outputs) (IsOutputNode circuit.now signals.now)) }
{
    let mut nodes = Items::new(alloc);
    for output in circuit.outputs.as_slice() {
        add_output(alloc, &mut nodes, circuit, signals, output)?;
    }
    Ok(nodes)
}

// The signal of an output, and the signal of the next node of an output.
fn output_signal(circuit: &Circuit, signals: &[u16], next: u16, output: &Output) -> (u16, u16)
    requires { next < 65535 }
    ensures own { is_own_signal circuit.now output.now ≡ true → (result.0 ≡ found_signal signals.now output.now.source) × (result.1 ≡ next) }
    ensures node { is_own_signal circuit.now output.now ≡ false → (result.0 ≡ next) × (result.1 ≡ next + 1) }
{
    if is_own_signal(circuit, output) {
        (found_signal(signals, output.source), next)
    } else {
        (next, next + 1)
    }
}

/// The signals of the outputs, where the first node of an output has the signal `next`.
pub fn output_signals(
    alloc: Global,
    circuit: &Circuit,
    signals: &[u16],
    first: u16,
) -> Result<Items<u16>, Memory>
    requires { first + length circuit.now.outputs ≤ 65535 }
    ensures { IfOk result (λ outputs. outputs ≡ output_signals circuit.now signals.now first circuit.now.outputs) }
{
    let mut found = Items::new(alloc);
    let mut next = first;
    for output in circuit.outputs.as_slice() {
        let (signal, after) = output_signal(circuit, signals, next, output);
        found.push(signal)?;
        next = after;
    }
    Ok(found)
}
