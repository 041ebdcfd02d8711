ghost use Rattle.std.specs.Prelude.{◌≡◌, ◌≢◌, ◌<◌, length, Err};
ghost use Rattle.act1_array.specs.declared.fault.ArrayFault.TheVariants as array;
ghost use Rattle.act1_circuit.specs.FormFaults.{FormGives};
ghost use Rattle.act1_circuit.specs.Range.{InRange};
ghost use Rattle.act1_fuses.specs.Rules.{KeepsRules};
ghost use Rattle.act1_extract.specs.Gives.{ExtractGives, PlacedGives, form_fault};
ghost use Rattle.act1_extract.specs.Net.{IsArrayCircuit, IsFormed};

use crate::clashes::first_clash;
use crate::fault::{ExtractFault, FormKind};
use crate::net::net_of;
use act1_array::{ArrayFault, circuit_of};
use act1_blif::Blif;
use act1_circuit::{FormFault, Placed, pair_form};
use act1_device::{Device, devices_are_small};
use act1_fuses::FuseFile;
use act1_meaning::array_net_means;
use std::alloc::Global;

// The refusal of an array that isn't sound.
fn array_fault(fault: ArrayFault) -> ExtractFault
    ensures memory { fault ≡ array.Memory → result ≡ ExtractFault.Memory }
    ensures other { fault ≢ array.Memory → result ≡ ExtractFault.Array fault }
{
    match fault {
        ArrayFault::Driven { .. } => ExtractFault::Array(fault),
        ArrayFault::Floating { .. } => ExtractFault::Array(fault),
        ArrayFault::Unfed { .. } => ExtractFault::Array(fault),
        ArrayFault::StartUnused { .. } => ExtractFault::Array(fault),
        ArrayFault::Memory => ExtractFault::Memory,
    }
}

// The refusal of a module that breaks a rule of pair form.
fn form_at(placed: &Placed, fault: FormKind, module: u16) -> ExtractFault
    requires low { «module» < length placed.now.spots }
    requires fails { FormGives placed.now.circuit (Err (form_fault fault «module»)) }
    ensures { PlacedGives placed.now (Err result) }
{
    ExtractFault::Form {
        fault,
        spot: placed.spots.as_slice()[usize::from(module)],
    }
}

// The refusal of a circuit that isn't in pair form.
#[tactic(auto, using(crate::proofs::Stops::ring_low, crate::proofs::Stops::start_low))]
fn form_stop(placed: &Placed, fault: FormFault) -> ExtractFault
    requires circuit { IsArrayCircuit placed.now }
    requires fails { FormGives placed.now.circuit (Err fault) }
    ensures { PlacedGives placed.now (Err result) }
{
    match fault {
        FormFault::Clocked(module) => form_at(placed, FormKind::Clocked, module),
        FormFault::ClockOut(output) => ExtractFault::ClockOut(output),
        FormFault::Ring(module) => form_at(placed, FormKind::Ring, module),
        FormFault::Start(module) => form_at(placed, FormKind::Start, module),
        FormFault::Memory => ExtractFault::Memory,
    }
}

// The netlist of a circuit in pair form, or its first clash.
fn unclashed(alloc: Global, placed: &Placed) -> Result<Blif, ExtractFault>
    requires circuit { IsArrayCircuit placed.now }
    requires form { IsFormed placed.now }
    ensures { PlacedGives placed.now result }
{
    if let Some(output) = first_clash(&placed.circuit) {
        return Err(ExtractFault::Clash(output));
    }
    Ok(net_of(alloc, &placed.circuit)?)
}

// The netlist of an array's circuit, or the first refusal.
fn net_of_placed(alloc: Global, placed: &Placed) -> Result<Blif, ExtractFault>
    requires { IsArrayCircuit placed.now }
    ensures { PlacedGives placed.now result }
{
    match pair_form(alloc, &placed.circuit) {
        Err(fault) => Err(form_stop(placed, fault)),
        Ok(_form) => unclashed(alloc, placed),
    }
}

/// The netlist that an array is extracted to, by its device and its antifuse file alone; or the first
/// refusal. There is one latch per pair, with its start's name and init; one node per other module, over
/// the different sources of its pins; one node per constant that a latch takes; and one node per output
/// whose source isn't a signal of its name. The circuit of the array means the netlist, in every order of
/// firing.
///
/// `Array` comes where the array isn't sound; `Form` and `ClockOut` where its circuit isn't in pair form;
/// `Clash` where an output has the name of an input or a latch and another source. `Memory` is answered
/// where no memory was found. How arrays are extracted is this project's own rule.
#[tactic(auto, using(crate::proofs::Lifted::rules_given, crate::proofs::Lifted::answer_given))]
pub fn extract(alloc: Global, device: &Device, file: &FuseFile) -> Result<Blif, ExtractFault>
    requires { KeepsRules device.now file.now }
    ensures { ExtractGives device.now file.now result }
{
    devices_are_small();
    array_net_means();
    match circuit_of(alloc, device, file) {
        Err(fault) => Err(array_fault(fault)),
        Ok(placed) => net_of_placed(alloc, &placed),
    }
}
