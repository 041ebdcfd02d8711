ghost use Rattle.std.specs.Prelude.{IfSome};
ghost use Rattle.act1_circuit.specs.Range.{InRange};
ghost use Rattle.act1_fuses.specs.Rules.{KeepsRules};

use crate::arrays::{device_of, fuses_of};
use crate::input::add_bit;
use act1_array::circuit_of;
use act1_circuit::{Circuit, FormFault, PairForm, pair_form, settle};
use act1_device::Device;
use act1_fuses::FuseFile;
use std::alloc::Global;
use std::fmt::Write;
use std::rt::Files;

// The circuit of an antifuse file.
fn circuit_in(alloc: Global, device: &Device, file: &FuseFile) -> Option<Circuit>
    requires { KeepsRules device.now file.now }
    ensures { IfSome result (λ circuit. InRange circuit) }
{
    match circuit_of(alloc, device, file) {
        Ok(placed) => Some(placed.circuit),
        Err(_) => None,
    }
}

// The circuit of an antifuse file of the device.
fn circuit_of_file<R: Files>(rt: &R, alloc: Global, device: &Device, name: &str) -> Option<Circuit>
    ensures { IfSome result (λ circuit. InRange circuit) }
{
    let file = fuses_of(rt, alloc, device, name)?;
    circuit_in(alloc, device, &file)
}

/// The circuit of a device and an antifuse file.
pub fn circuit_from<R: Files>(rt: &R, alloc: Global, device: &str, fuses: &str) -> Option<Circuit>
    ensures { IfSome result (λ circuit. InRange circuit) }
{
    let device = device_of(rt, alloc, device)?;
    circuit_of_file(rt, alloc, &device, fuses)
}

// Adds the pairs and the other modules of a circuit.
fn add_form(form: &PairForm, text: &mut String) -> Option<()> {
    for pair in form.pairs.as_slice() {
        writeln!(text, "pair {} {}", pair.master, pair.slave).ok()?;
    }
    text.push_str("others").ok()?;
    for module in form.order.as_slice() {
        write!(text, " {module}").ok()?;
    }
    text.push('\n').ok()
}

// Adds why a circuit isn't in pair form.
fn add_fault(fault: FormFault, text: &mut String) -> Option<()> {
    match fault {
        FormFault::Clocked(module) => writeln!(text, "clocked {module}").ok(),
        FormFault::ClockOut(output) => writeln!(text, "clock out {output}").ok(),
        FormFault::Ring(module) => writeln!(text, "ring {module}").ok(),
        FormFault::Start(module) => writeln!(text, "start {module}").ok(),
        FormFault::Memory => None,
    }
}

// Adds the pair form of a circuit, or its first fault.
fn add_answer(alloc: Global, circuit: &Circuit, text: &mut String) -> Option<()>
    requires { InRange circuit.now }
{
    match pair_form(alloc, circuit) {
        Ok(form) => add_form(&form, text),
        Err(fault) => add_fault(fault, text),
    }
}

/// The row `form DEVICE FUSES`.
pub fn form_row<R: Files>(rt: &R, alloc: Global, words: &[&str], text: &mut String) -> Option<()> {
    let [device, fuses] = words else {
        return None;
    };
    let circuit = circuit_from(rt, alloc, device, fuses)?;
    add_answer(alloc, &circuit, text)
}

/// The bits that a word has.
pub fn bits_of(alloc: Global, word: &str) -> Option<Vec<bool>> {
    let mut bits = Vec::new(alloc);
    for byte in word.as_bytes() {
        bits.push(*byte == b'1').ok()?;
    }
    Some(bits)
}

/// Adds bits as characters, and a line feed.
pub fn add_bits(bits: &[bool], text: &mut String) -> Option<()> {
    for bit in bits {
        add_bit(text, *bit)?;
    }
    text.push('\n').ok()
}

/// Adds whether a circuit rests, or the least module that doesn't.
pub fn add_rest(unrest: Option<u16>, text: &mut String) -> Option<()> {
    match unrest {
        None => text.push_str("rests\n").ok(),
        Some(module) => writeln!(text, "module {module}").ok(),
    }
}

// Adds what a wave leaves of the bits of the modules, and the least that doesn't rest, if one doesn't.
fn add_settled(
    circuit: &Circuit,
    clock: bool,
    inputs: &[bool],
    bits: &mut [bool],
    text: &mut String,
) -> Option<()> {
    if bits.len() != circuit.modules.len() || bits.len() > 65_535 {
        return None;
    }
    let unrest = settle(circuit, clock, inputs, bits);
    add_bits(bits, text)?;
    add_rest(unrest, text)
}

/// The row `settled CLOCK DEVICE FUSES INPUTS BITS`.
pub fn settled_row<R: Files>(
    rt: &R,
    alloc: Global,
    words: &[&str],
    text: &mut String,
) -> Option<()> {
    let [clock, device, fuses, inputs, bits] = words else {
        return None;
    };
    let circuit = circuit_from(rt, alloc, device, fuses)?;
    let inputs = bits_of(alloc, inputs)?;
    let mut bits = bits_of(alloc, bits)?;
    add_settled(&circuit, *clock == "1", &inputs, &mut bits, text)
}
