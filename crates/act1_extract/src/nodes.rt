ghost use Rattle.std.specs.Prelude.{◌≡◌, ◌<◌, ◌≤◌, ◌++◌, ◌∷◌, [], Bool, List, length, map, false, true, slice_index_or, IfOk, OnOk};
ghost use Rattle.act1_blif.specs.declared.blif.Node.{Node as BlifNode};
ghost use Rattle.act1_circuit.specs.PairForm.{has_clock, pins_of};
ghost use Rattle.act1_circuit.specs.Range.{InRange};
ghost use Rattle.act1_meaning.specs.Extracted.{count_below, different, is_outside, module_in};
ghost use Rattle.act1_extract.specs.Layout.{found_signal};
ghost use Rattle.act1_extract.specs.Parts.{constant_of};
ghost use Rattle.act1_extract.specs.Picked.{AddsConstant, AddsModule, ArePicked, IsModuleNode, IsNode};

use crate::covers::{constant_cover, module_cover};
use crate::layout::found_signal;
use crate::sources::{different, has_clock, pins_of};
use act1_base::{Items, Memory, Name};
use act1_blif::Node;
use act1_circuit::{Circuit, Source};
use std::alloc::Global;

// The signals of some sources.
fn signals_of(alloc: Global, signals: &[u16], sources: &[Source]) -> Result<Items<u16>, Memory>
    ensures { IfOk result (λ found. found ≡ map (found_signal signals.now) sources.now) }
{
    let mut found = Items::new(alloc);
    for source in sources {
        found.push(found_signal(signals, *source))?;
    }
    Ok(found)
}

// The node of a module with these pins.
fn module_node(
    alloc: Global,
    signals: &[u16],
    name: &Name,
    pins: [Source; 8],
) -> Result<Node, Memory>
    ensures { IfOk result (IsNode name.now (map (found_signal signals.now) (different pins)) (module_in pins)) }
{
    let sources = different(alloc, &pins)?;
    let cover = module_cover(alloc, pins, sources.as_slice())?;
    Ok(Node {
        name: name.clone()?,
        inputs: signals_of(alloc, signals, sources.as_slice())?,
        cover,
    })
}

// Adds the node of a module, if it is outside pairs.
#[tactic(auto, using(crate::proofs::Steps::node_of_module, crate::proofs::Steps::none_of_module))]
fn add_module(
    alloc: Global,
    nodes: &mut Items<Node>,
    circuit: &Circuit,
    signals: &[u16],
    names: &[Name],
    module: u16,
) -> Result<(), Memory>
    requires low { «module» < length circuit.now.modules }
    requires named { has_clock circuit.now «module» ≡ false → length nodes.old < length names.now }
    ensures { OnOk result (AddsModule circuit.now signals.now names.now «module» nodes.old nodes.new) }
{
    if has_clock(circuit, module) {
        return Ok(());
    }
    let name = &names[nodes.len()];
    let pins = pins_of(circuit, module);
    nodes.push(module_node(alloc, signals, name, pins)?)?;
    Ok(())
}

/// The nodes of the modules outside pairs, in site order.
#[tactic(auto, using(crate::proofs::Steps::module_added, crate::proofs::Steps::has_name_left))]
pub fn module_nodes(
    alloc: Global,
    circuit: &Circuit,
    signals: &[u16],
    names: &[Name],
) -> Result<Items<Node>, Memory>
    requires modules { length circuit.now.modules ≤ 2048 }
    requires named { count_below (is_outside circuit.now) (length circuit.now.modules) ≤ length names.now }
    ensures { IfOk result (ArePicked (is_outside circuit.now) (length circuit.now.modules) (IsModuleNode circuit.now signals.now names.now)) }
{
    let mut nodes = Items::new(alloc);
    for module in 0..circuit.modules.len() {
        add_module(alloc, &mut nodes, circuit, signals, names, module as u16)?;
    }
    Ok(nodes)
}

// The node of a constant.
fn constant_node(alloc: Global, name: &Name, value: bool) -> Result<Node, Memory>
    ensures { IfOk result (IsNode name.now [] (constant_of value)) }
{
    let cover = constant_cover(alloc, value)?;
    Ok(Node {
        name: name.clone()?,
        inputs: Items::new(alloc),
        cover,
    })
}

/// Adds the node of a constant, if some latch takes it.
#[tactic(auto, using(crate::proofs::Steps::node_of_constant, crate::proofs::Steps::none_of_constant))]
pub fn add_constant(
    alloc: Global,
    nodes: &mut Items<Node>,
    names: &[Name],
    is_taken: bool,
    value: bool,
) -> Result<(), Memory>
    requires { is_taken ≡ true → length nodes.old < length names.now }
    ensures { OnOk result (AddsConstant is_taken value names.now nodes.old nodes.new) }
{
    if is_taken {
        let name = &names[nodes.len()];
        nodes.push(constant_node(alloc, name, value)?)?;
    }
    Ok(())
}
