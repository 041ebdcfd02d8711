ghost use Rattle.std.specs.Prelude.{◌≡◌, ◌≢◌, ◌≤◌, length, map, All, AllPairs, IfOk};
ghost use Rattle.act1_circuit.specs.declared.circuit.Start.{Start};
ghost use Rattle.act1_circuit.specs.Range.{InRange};
ghost use Rattle.act1_device.specs.Sites.{IsSite};
ghost use Rattle.act1_fuses.specs.declared.fuses.Port.{Port};
ghost use Rattle.act1_fuses.specs.Rules.{KeepsRules};
ghost use Rattle.act1_array.specs.Gives.{Gives};

use crate::fault::ArrayFault;
use crate::modules::modules_of;
use crate::network::Network;
use crate::outputs::outputs_of;
use crate::owners::Pair;
use crate::starts::starts_of;
use act1_base::{Items, Memory, Name, copy_of_name};
use act1_circuit::{Circuit, Placed};
use act1_device::{Device, devices_are_small};
use act1_fuses::{FuseFile, Port};
use std::alloc::Global;

// The names of some ports.
fn names_of(alloc: Global, ports: &[Port]) -> Result<Items<Name>, Memory>
    ensures { IfOk result (λ names. names ≡ map (λ (port : Port). port.name) ports.now) }
{
    let mut names = Items::new(alloc);
    for port in ports {
        names.push(Name::new(alloc, port.name.as_bytes())?)?;
    }
    Ok(names)
}

/// The circuit that an array is, by its device and its antifuse file alone. A module is used if a
/// listed antifuse touches its output; the circuit's modules are the used ones, by row and then by
/// column, and each pin and each output has the source that it is joined to. Clock, inputs, outputs
/// and starts are those of the file, in its order.
///
/// The circuit comes exactly where the array is sound, and each refusal exactly where it is the first
/// that holds: `Driven` where two different sources are joined, `Floating` where a pin of a used
/// module is joined to none, `Unfed` where an output is, `StartUnused` where a start stands at an
/// unused module. `Memory` where no memory was found.
///
/// The circuit has at most 2,048 modules, it has each source of its pins and outputs, and its starts
/// stand at modules of their own.
///
/// Two wires are joined where a path of listed antifuses leads from the one to the other; what a sound
/// array is, and the order of its sources and refusals, are this project's own rules.
pub fn circuit_of(alloc: Global, device: &Device, file: &FuseFile) -> Result<Placed, ArrayFault>
    requires { KeepsRules device.now file.now }
    ensures gives { Gives device.now file.now result }
    ensures few { IfOk result (λ placed. length placed.spots ≤ 2048) }
    ensures in_range { IfOk result (λ placed. InRange placed.circuit) }
    ensures apart { IfOk result (λ placed. AllPairs (λ (s t : Start). s.«module» ≢ t.«module») placed.circuit.starts) }
{
    devices_are_small();
    circuit_of_sites(alloc, device, file)
}

// The same of a file whose antifuses stand at sites of the device, and that has as many inputs and
// outputs as can be numbered: the code needs no other rule, but only a file that keeps them all has a
// meaning.
fn circuit_of_sites(alloc: Global, device: &Device, file: &FuseFile) -> Result<Placed, ArrayFault>
    requires sites { All (IsSite device.now) file.now.sites }
    requires few_inputs { length file.now.ins ≤ 65536 }
    requires few_outputs { length file.now.outs ≤ 65536 }
    ensures gives { KeepsRules device.now file.now → Gives device.now file.now result }
    ensures few { IfOk result (λ placed. length placed.spots ≤ 2048) }
{
    let network = Network::of_array(alloc, device, file)?;
    if let Some(Pair { first, second }) = network.driven_pair() {
        return Err(ArrayFault::Driven { first, second });
    }
    let modules = modules_of(alloc, &network)?;
    let outputs = outputs_of(alloc, &network, file)?;
    let starts = starts_of(alloc, network.spots(), file)?;
    let circuit = Circuit {
        clock: copy_of_name(&file.clock)?,
        inputs: names_of(alloc, file.ins.as_slice())?,
        modules,
        outputs,
        starts,
    };
    Ok(Placed {
        circuit,
        spots: network.into_spots(),
    })
}
