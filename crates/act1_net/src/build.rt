ghost use Rattle.std.specs.Prelude.{◌≡◌, ◌<◌, ◌≤◌, ◌++◌, [], All, IfOk, IsTrue, OnOk, length, map};
ghost use Rattle.act1_logic.specs.Rows.{is_cover};
ghost use Rattle.act1_blif.specs.Names.{signal_name};
ghost use Rattle.act1_blif.specs.Rules.{HasLevels, is_blif};
ghost use Rattle.act1_net.specs.Net.{chosen, place_in};
ghost use Rattle.act1_net.specs.Gates.{term_of};
ghost use Rattle.act1_net.specs.MarkSteps.{AreTermsWithin, IsWithin};
ghost use Rattle.act1_net.specs.BuildSteps.{AddsNode, AreKeptNodes, IsKeptNet, IsKeptPart, IsNodeOf, if_kept, kept_latch, moved_gate, moved_term, next_term};
ghost use Rattle.act1_net.specs.KeptSteps.{CanKeep, CanKeepAll, IsFit};

use crate::copies::{copy_of, copy_of_names};
use crate::gate::Gate;
use crate::left::{gate_with, term_of};
use crate::net::{Net, NetTerm};
use crate::places::Places;
use act1_base::{Items, Memory, Name, copy_of_name};
use act1_blif::{Blif, Latch, Node, netlists_are_whole, signal_name};
use act1_logic::Cover;
use std::alloc::Global;

/// The names of the outputs of a netlist.
pub fn output_names(alloc: Global, blif: &Blif) -> Result<Items<Name>, Memory>
    ensures { IfOk result (λ names. names ≡ map (signal_name blif.now) blif.now.outputs) }
{
    let mut names = Items::new(alloc);
    for signal in blif.outputs.as_slice() {
        names.push(Name::new(alloc, signal_name(blif, *signal))?)?;
    }
    Ok(names)
}

// A latch goes last where it is kept.
fn add_latch(latches: &mut Items<Latch>, latch: &Latch, is_kept: bool) -> Result<(), Memory>
    ensures { OnOk result (latches.new ≡ latches.old ++ if_kept is_kept (kept_latch latch.now)) }
{
    if !is_kept {
        return Ok(());
    }
    latches.push(Latch {
        name: latch.name.clone()?,
        input: 0,
        init: latch.init,
    })
}

// The kept latches.
fn latches_of(alloc: Global, latches: &[Latch], kept: &[bool]) -> Result<Items<Latch>, Memory>
    requires { length kept.now ≡ length latches.now }
    ensures { IfOk result (λ found. found ≡ chosen kept.now (map kept_latch latches.now)) }
{
    let mut found = Items::new(alloc);
    for at in 0..latches.len() {
        add_latch(&mut found, &latches[at], kept[at])?;
    }
    Ok(found)
}

// A term, with its signal numbered anew.
fn moved_term(places: &Places, term: NetTerm) -> NetTerm
    requires { IsWithin (length places.now) term }
    ensures { result ≡ moved_term places.now term }
{
    match term {
        NetTerm::Zero => NetTerm::Zero,
        NetTerm::One => NetTerm::One,
        NetTerm::Signal(signal) => NetTerm::Signal(places.of(signal)),
    }
}

// The signals, numbered anew.
fn moved(alloc: Global, places: &Places, signals: &[u16]) -> Result<Items<u16>, Memory>
    requires { All (λ signal. signal < length places.now) signals.now }
    ensures { IfOk result (λ numbers. numbers ≡ map (place_in places.now) signals.now) }
{
    let mut numbers = Items::new(alloc);
    for signal in signals {
        numbers.push(places.of(*signal))?;
    }
    Ok(numbers)
}

// The node of this name and this function of signals, which are numbered anew.
fn node_of(alloc: Global, name: &Name, gate: Gate, places: &Places) -> Result<Node, Memory>
    requires valid { IsTrue (is_cover (length gate.inputs) gate.output gate.rows) }
    requires few { length gate.inputs ≤ 64 }
    requires within { All (λ signal. signal < length places.now) gate.inputs }
    ensures { IfOk result (IsNodeOf name.now (moved_gate places.now gate)) }
{
    let name = name.clone()?;
    let inputs = moved(alloc, places, gate.inputs.as_slice())?;
    let width = inputs.len() as u8;
    Ok(Node {
        name,
        inputs,
        cover: Cover {
            width,
            output: gate.output,
            rows: gate.rows,
        },
    })
}

// What is left of a node goes last where it is kept.
fn add_node(
    alloc: Global,
    nodes: &mut Items<Node>,
    node: &Node,
    is_kept: bool,
    terms: &[NetTerm],
    places: &Places,
) -> Result<(), Memory>
    requires { CanKeep terms.now places.now is_kept node.now }
    ensures { OnOk result (AddsNode terms.now places.now is_kept node.now nodes.old nodes.new) }
{
    if !is_kept {
        return Ok(());
    }
    let gate = gate_with(alloc, terms, node)?;
    nodes.push(node_of(alloc, &node.name, gate, places)?)
}

// The kept nodes.
fn nodes_of(
    alloc: Global,
    nodes: &[Node],
    kept: &[bool],
    terms: &[NetTerm],
    places: &Places,
) -> Result<Items<Node>, Memory>
    requires each { length kept.now ≡ length nodes.now }
    requires nodes { CanKeepAll terms.now places.now kept.now nodes.now }
    ensures { IfOk result (AreKeptNodes terms.now places.now kept.now nodes.now) }
{
    let mut found = Items::new(alloc);
    for at in 0..nodes.len() {
        add_node(alloc, &mut found, &nodes[at], kept[at], terms, places)?;
    }
    Ok(found)
}

// What the outputs are, with the kept signals numbered anew.
fn outputs_of(
    alloc: Global,
    outputs: &[u16],
    terms: &[NetTerm],
    places: &Places,
) -> Result<Items<NetTerm>, Memory>
    requires outputs { All (λ signal. signal < length terms.now) outputs.now }
    requires all { length terms.now ≡ length places.now }
    requires within { AreTermsWithin (length places.now) terms.now }
    ensures { IfOk result (λ found. found ≡ map (moved_term places.now) (map (term_of terms.now) outputs.now)) }
{
    let mut found = Items::new(alloc);
    for signal in outputs {
        found.push(moved_term(places, term_of(terms, *signal)))?;
    }
    Ok(found)
}

// A term goes last where its latch is kept.
fn add_next(next: &mut Items<NetTerm>, term: NetTerm, is_kept: bool) -> Result<(), Memory>
    ensures { OnOk result (next.new ≡ next.old ++ if_kept is_kept term) }
{
    if !is_kept {
        return Ok(());
    }
    next.push(term)
}

// What the kept latches take, with the kept signals numbered anew.
fn next_of(
    alloc: Global,
    latches: &[Latch],
    kept: &[bool],
    terms: &[NetTerm],
    places: &Places,
) -> Result<Items<NetTerm>, Memory>
    requires each { length kept.now ≡ length latches.now }
    requires all { length terms.now ≡ length places.now }
    requires inputs { All (λ latch. latch.input < length terms.now) latches.now }
    requires within { AreTermsWithin (length places.now) terms.now }
    ensures { IfOk result (λ found. found ≡ chosen kept.now (map (next_term terms.now places.now) latches.now)) }
{
    let mut found = Items::new(alloc);
    for at in 0..latches.len() {
        let term = moved_term(places, term_of(terms, latches[at].input));
        add_next(&mut found, term, kept[at])?;
    }
    Ok(found)
}

// The netlist of these parts, without outputs.
fn assembled(
    alloc: Global,
    model: Name,
    clock: Option<Name>,
    inputs: Items<Name>,
    latches: Items<Latch>,
    nodes: Items<Node>,
) -> Blif
    requires valid { IsTrue (is_blif model clock inputs latches nodes []) }
    requires acyclic { ∥ HasLevels inputs latches nodes ∥₁ }
    ensures clock { result.clock ≡ clock }
    ensures inputs { result.inputs ≡ inputs }
    ensures latches { result.latches ≡ latches }
    ensures nodes { result.nodes ≡ nodes }
{
    Blif {
        model,
        clock,
        inputs,
        latches,
        nodes,
        outputs: Items::new(alloc),
    }
}

// The netlist of the kept signals.
fn kept_part(alloc: Global, blif: &Blif, terms: &[NetTerm], places: &Places) -> Result<Blif, Memory>
    requires { IsFit blif.now terms.now places.now }
    ensures { IfOk result (IsKeptPart blif.now terms.now places.now) }
{
    netlists_are_whole();
    let first = blif.inputs.len() + blif.latches.len();
    let marks = places.marks();
    let model = copy_of(&blif.model)?;
    let clock = copy_of_name(&blif.clock)?;
    let inputs = copy_of_names(alloc, blif.inputs.as_slice())?;
    let latches = latches_of(
        alloc,
        blif.latches.as_slice(),
        &marks[blif.inputs.len()..first],
    )?;
    let nodes = nodes_of(alloc, blif.nodes.as_slice(), &marks[first..], terms, places)?;
    Ok(assembled(alloc, model, clock, inputs, latches, nodes))
}

/// The net of the kept signals, numbered anew.
pub fn kept_net(
    alloc: Global,
    blif: &Blif,
    terms: &[NetTerm],
    places: &Places,
) -> Result<Net, Memory>
    requires { IsFit blif.now terms.now places.now }
    ensures { IfOk result (IsKeptNet blif.now terms.now places.now) }
{
    netlists_are_whole();
    let first = blif.inputs.len() + blif.latches.len();
    let kept = &places.marks()[blif.inputs.len()..first];
    let names = output_names(alloc, blif)?;
    let outputs = outputs_of(alloc, blif.outputs.as_slice(), terms, places)?;
    let next = next_of(alloc, blif.latches.as_slice(), kept, terms, places)?;
    let blif = kept_part(alloc, blif, terms, places)?;
    Ok(Net {
        blif,
        names,
        outputs,
        next,
    })
}
