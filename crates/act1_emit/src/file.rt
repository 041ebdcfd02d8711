ghost use Rattle.std.specs.Prelude.{◌≡◌, ◌+◌, ◌<◌, ◌≤◌, length, map, All, IfOk};
ghost use Rattle.act1_circuit.specs.declared.circuit.Output.{Output as AnOutput};
ghost use Rattle.act1_circuit.specs.declared.circuit.Start.{Start as AStart};
ghost use Rattle.act1_emit.specs.File.{IsHeadOf, ports_from, start_at};
ghost use Rattle.act1_plan.specs.Legal.{Legal};

use act1_base::{Items, Memory, Name, copy_of_name};
use act1_circuit::{Output, Spot, Start};
use act1_device::{Device, Site};
use act1_fuses::{FuseFile, Port, StartAt};
use act1_plan::Plan;
use std::alloc::Global;

// The inputs at the first pads.
fn in_ports(alloc: Global, names: &[Name]) -> Result<Items<Port>, Memory>
    requires { length names.now ≤ 65535 }
    ensures { IfOk result (λ ports. ports ≡ ports_from 0 names.now) }
{
    let mut ports = Vec::with_capacity(alloc, names.len())?;
    for (i, name) in names.iter().enumerate() {
        ports.push(Port {
            pad: i as u16,
            name: name.clone()?,
        })?;
    }
    Ok(Items::from_vec(ports))
}

// The outputs at the pads from the first on.
fn out_ports(alloc: Global, first: usize, outputs: &[Output]) -> Result<Items<Port>, Memory>
    requires { first + length outputs.now ≤ 65535 }
    ensures { IfOk result (λ ports. ports ≡ ports_from first (map (λ (o : AnOutput). o.name) outputs.now)) }
{
    let mut ports = Vec::with_capacity(alloc, outputs.len())?;
    for (i, output) in outputs.iter().enumerate() {
        ports.push(Port {
            pad: (first + i) as u16,
            name: output.name.clone()?,
        })?;
    }
    Ok(Items::from_vec(ports))
}

// The start at the spot of its module.
fn start_at(spots: &[Spot], start: &Start) -> Result<StartAt, Memory>
    requires { start.now.module < length spots.now }
    ensures { IfOk result (λ made. made ≡ start_at spots.now start.now) }
{
    Ok(StartAt {
        spot: spots[usize::from(start.module)],
        init: start.init,
        name: start.name.clone()?,
    })
}

// The starts at the spots of their modules.
fn starts_at(alloc: Global, spots: &[Spot], starts: &[Start]) -> Result<Items<StartAt>, Memory>
    requires { All (λ (s : AStart). s.module < length spots.now) starts.now }
    ensures { IfOk result (λ made. made ≡ map (start_at spots.now) starts.now) }
{
    let mut made = Vec::with_capacity(alloc, starts.len())?;
    for start in starts {
        made.push(start_at(spots, start)?)?;
    }
    Ok(Items::from_vec(made))
}

/// The antifuse file of a plan with these sites.
pub fn file_with(
    alloc: Global,
    device: &Device,
    plan: &Plan,
    sites: Items<Site>,
) -> Result<FuseFile, Memory>
    requires { Legal device.now plan.now }
    ensures { IfOk result (λ f. IsHeadOf device.now plan.now f × (f.sites ≡ sites)) }
{
    let circuit = &plan.placed.circuit;
    let outputs = circuit.outputs.as_slice();
    let starts = circuit.starts.as_slice();
    Ok(FuseFile {
        device: device.name.clone()?,
        clock: copy_of_name(&circuit.clock)?,
        ins: in_ports(alloc, circuit.inputs.as_slice())?,
        outs: out_ports(alloc, circuit.inputs.len(), outputs)?,
        starts: starts_at(alloc, plan.placed.spots.as_slice(), starts)?,
        sites,
    })
}
