ghost use Rattle.std.specs.Prelude.{◌≡◌, ◌<◌, ◌≤◌, ◌+◌, ◌++◌, length, IfOk, OnOk};
ghost use Rattle.act1_circuit.specs.Range.{InRange};
ghost use Rattle.act1_plan.specs.Nets.{is_same_source};
ghost use Rattle.act1_circuit.specs.declared.circuit.Source.TheVariants.{Input, Module};
ghost use Rattle.act1_place.specs.Kept.{users, joins_of, all_joins};
ghost use Rattle.act1_place.specs.NetSteps as steps;
ghost use Rattle.act1_place.specs.Perimeter.{pad_place};
ghost use Rattle.act1_place.specs.Place.{HasPads};
ghost use Rattle.act1_place.specs.Gains.{AreNumbers, AreTouching};

use crate::net::{Joins, Place};
use crate::sums::joins;
use act1_base::{Items, Memory};
use act1_circuit::{Circuit, Output, Source};
use act1_device::{Device, devices_are_small};
use act1_plan::is_same_source;
use std::alloc::Global;

// Whether the net drives one of the pins.
fn drives(net: Source, pins: &[Source]) -> bool
    ensures { result ≡ steps.drives net pins.now }
{
    pins.iter().any(|pin| is_same_source(*pin, net))
}

// Adds the modules that the net drives.
#[tactic(auto, using(crate::proofs::NetFinds::users_push, crate::proofs::NetFinds::users_skip))]
fn add_users(found: &mut Vec<u16>, net: Source, modules: &[[Source; 8]]) -> Result<(), Memory>
    requires { length modules.now ≤ 65535 }
    ensures { OnOk result (found.new.items ≡ found.old.items ++ users net 0 modules.now) }
{
    for (module, pins) in modules.iter().enumerate() {
        if drives(net, pins) {
            found.push(module as u16)?;
        }
    }
    Ok(())
}

// The place of a pad.
#[tactic(auto, using(crate::proofs::PadFacts::low_channel))]
fn pad_place(device: &Device, pad: usize) -> Place
    requires { pad < length device.now.pads }
    ensures { result ≡ pad_place device.now pad }
{
    let place = device.pads.as_slice()[pad];
    Place {
        x: place.column,
        y: 2 * place.channel,
    }
}

// Adds the pads of the outputs that the net drives. The pad of the first output has this number.
#[tactic(auto, using(crate::proofs::NetFinds::pads_push, crate::proofs::NetFinds::pads_skip))]
fn add_pads(
    found: &mut Vec<Place>,
    device: &Device,
    net: Source,
    first: usize,
    outputs: &[Output],
) -> Result<(), Memory>
    requires { first + length outputs.now ≤ length device.now.pads }
    ensures { OnOk result (found.new.items ≡ found.old.items ++ steps.driven_pads device.now net first outputs.now) }
{
    devices_are_small();
    for (at, output) in outputs.iter().enumerate() {
        if is_same_source(output.source, net) {
            found.push(pad_place(device, first + at))?;
        }
    }
    Ok(())
}

// What the net of an input joins.
fn input_net(alloc: Global, device: &Device, circuit: &Circuit, input: u16) -> Result<Joins, Memory>
    requires range { InRange circuit.now }
    requires pads { HasPads device.now circuit.now }
    requires there { input < length circuit.now.inputs }
    ensures { IfOk result (λ net. net ≡ joins_of device.now circuit.now (Input input)) }
{
    let net = Source::Input(input);
    let mut modules = Vec::new(alloc);
    add_users(&mut modules, net, circuit.modules.as_slice())?;
    let mut pads = Vec::new(alloc);
    pads.push(pad_place(device, usize::from(input)))?;
    let outputs = circuit.outputs.as_slice();
    add_pads(&mut pads, device, net, circuit.inputs.len(), outputs)?;
    Ok(Joins {
        modules: Items::from_vec(modules),
        pads: Items::from_vec(pads),
    })
}

// What the net of a module joins.
fn module_net(
    alloc: Global,
    device: &Device,
    circuit: &Circuit,
    module: u16,
) -> Result<Joins, Memory>
    requires range { InRange circuit.now }
    requires pads { HasPads device.now circuit.now }
    ensures { IfOk result (λ net. net ≡ joins_of device.now circuit.now (Module «module»)) }
{
    let net = Source::Module(module);
    let mut modules = Vec::new(alloc);
    modules.push(module)?;
    add_users(&mut modules, net, circuit.modules.as_slice())?;
    let mut pads = Vec::new(alloc);
    let outputs = circuit.outputs.as_slice();
    add_pads(&mut pads, device, net, circuit.inputs.len(), outputs)?;
    Ok(Joins {
        modules: Items::from_vec(modules),
        pads: Items::from_vec(pads),
    })
}

/// What each net of the circuit joins: the nets of the inputs, and then those of the modules.
pub(crate) fn nets_of(
    alloc: Global,
    device: &Device,
    circuit: &Circuit,
) -> Result<Items<Joins>, Memory>
    requires range { InRange circuit.now }
    requires pads { HasPads device.now circuit.now }
    ensures { IfOk result (λ nets. nets ≡ all_joins device.now circuit.now) }
{
    let mut nets = Vec::new(alloc);
    for input in 0..circuit.inputs.len() {
        nets.push(input_net(alloc, device, circuit, input as u16)?)?;
    }
    for module in 0..circuit.modules.len() {
        nets.push(module_net(alloc, device, circuit, module as u16)?)?;
    }
    Ok(Items::from_vec(nets))
}

// The numbers of the nets that join the module.
#[tactic(auto, using(crate::proofs::NetFinds::touching_first, crate::proofs::NetFinds::touching_push, crate::proofs::NetFinds::touching_skip, crate::proofs::NetFinds::touching_done))]
fn touching(alloc: Global, nets: &[Joins], module: u16) -> Result<Items<u32>, Memory>
    requires { length nets.now ≤ 131070 }
    ensures { IfOk result (λ numbers. AreNumbers nets.now «module» numbers) }
{
    let mut numbers = Vec::new(alloc);
    for (at, net) in nets.iter().enumerate() {
        if joins(net, module) {
            numbers.push(at as u32)?;
        }
    }
    Ok(Items::from_vec(numbers))
}

/// The numbers of the nets that join each of so many modules.
#[tactic(auto, using(crate::proofs::NetFinds::numbers_first, crate::proofs::NetFinds::numbers_push))]
pub(crate) fn touching_of(
    alloc: Global,
    nets: &[Joins],
    count: usize,
) -> Result<Items<Items<u32>>, Memory>
    requires nets { length nets.now ≤ 131070 }
    requires modules { count ≤ 65535 }
    ensures { IfOk result (λ found. AreTouching count nets.now found) }
{
    let mut found = Vec::with_capacity(alloc, count)?;
    for module in 0..count {
        found.push(touching(alloc, nets, module as u16)?)?;
    }
    Ok(Items::from_vec(found))
}
