ghost use Rattle.std.specs.Prelude.{◌≡◌, ◌++◌, length, map, false, OnOk, IfErr};
ghost use Rattle.act1_circuit.specs.declared.circuit.Output.{Output};
ghost use Rattle.act1_circuit.specs.Firing.{source_value, shown, low_bits, high_bits, fire_all, site_wave, IsAtRest, IsLeastUnrest};
ghost use Rattle.act1_engine.specs.Engines.{engine_bits, IsEngineOf};
ghost use Rattle.act1_sim.specs.Cycles.{in_site_order, RestsIn, UnrestsIn};
ghost use Rattle.act1_sim.specs.SimulationSteps.{OnUnrest};
ghost use Rattle.act1_sim.specs.Vectors.{bits_of, digit, output_line};

use crate::vectors::bits_of;
use act1_base::{Memory, Stop};
use act1_circuit::{Circuit, value_of};
use act1_engine::Engine;
use std::alloc::Global;

// The character of a bit.
fn digit(bit: bool) -> u8
    ensures { result ≡ digit bit }
{
    if bit { b'1' } else { b'0' }
}

// Adds the line of the outputs, which are read while the clock is 0.
fn print_outputs(
    circuit: &Circuit,
    inputs: &[bool],
    bits: &[bool],
    text: &mut Vec<u8>,
) -> Result<(), Memory>
    ensures { OnOk result (text.new.items ≡ text.old.items ++ output_line (shown circuit.now inputs.now bits.now)) }
{
    for output in circuit.outputs.as_slice() {
        text.push(digit(value_of(output.source, false, inputs, bits)))?;
    }
    text.push(b'\n')?;
    Ok(())
}

// Fires one wave, and stops at a module that doesn't rest.
fn fire_wave(
    circuit: &Circuit,
    clock: bool,
    inputs: &[bool],
    engine: &mut Engine,
) -> Result<(), Stop<u16>>
    requires { IsEngineOf circuit.now engine.old }
    ensures is { IsEngineOf circuit.now engine.new }
    ensures wave { engine_bits engine.new ≡ fire_all circuit.now clock inputs.now (engine_bits engine.old) (site_wave (length circuit.now.modules)) }
    ensures ok { OnOk result (IsAtRest circuit.now clock inputs.now (engine_bits engine.new)) }
    ensures err { IfErr result (OnUnrest (IsLeastUnrest circuit.now clock inputs.now (engine_bits engine.new))) }
{
    match engine.settle(circuit, clock, inputs) {
        None => Ok(()),
        Some(module) => Err(Stop::Fault(module)),
    }
}

/// One cycle: the inputs are those of the line and the clock is 0, a wave, the outputs are read, the
/// clock is 1, a wave. The bits become what the second wave leaves, and the line of outputs is added
/// to the text. It stops at the least module that doesn't rest after a wave.
pub fn run_cycle(
    alloc: Global,
    circuit: &Circuit,
    line: &[u8],
    engine: &mut Engine,
    text: &mut Vec<u8>,
) -> Result<(), Stop<u16>>
    requires { IsEngineOf circuit.now engine.old }
    ensures is { IsEngineOf circuit.now engine.new }
    ensures rests { OnOk result (RestsIn circuit.now (engine_bits engine.old) (bits_of line.now)) }
    ensures bits { OnOk result (engine_bits engine.new ≡ high_bits circuit.now (engine_bits engine.old) (bits_of line.now) (in_site_order circuit.now)) }
    ensures text { OnOk result (text.new.items ≡ text.old.items ++ output_line (shown circuit.now (bits_of line.now) (low_bits circuit.now (engine_bits engine.old) (bits_of line.now) (in_site_order circuit.now)))) }
    ensures err { IfErr result (OnUnrest (UnrestsIn circuit.now (engine_bits engine.old) (bits_of line.now))) }
{
    let inputs = bits_of(alloc, line)?;
    fire_wave(circuit, false, &inputs, engine)?;
    print_outputs(circuit, &inputs, engine.bits(), text)?;
    fire_wave(circuit, true, &inputs, engine)
}
