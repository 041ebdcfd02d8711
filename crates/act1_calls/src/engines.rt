ghost use Rattle.std.specs.Prelude.{IfSome};
ghost use Rattle.act1_circuit.specs.Range.{InRange};
ghost use Rattle.act1_engine.specs.Engines.{IsEngineOf};

use crate::circuits::{add_bits, add_rest, bits_of, circuit_from};
use act1_circuit::{Circuit, settle};
use act1_engine::Engine;
use std::alloc::Global;
use std::rt::Files;

// What the plain program answers, which fires all modules in each round, and what it leaves of the bits.
fn settled(
    circuit: &Circuit,
    clock: bool,
    inputs: &[bool],
    bits: &mut [bool],
) -> Option<Option<u16>> {
    if bits.len() != circuit.modules.len() || bits.len() > 65_535 {
        return None;
    }
    Some(settle(circuit, clock, inputs, bits))
}

// Adds what a wave of an engine leaves and answers, and `differs` where the plain program has it otherwise.
fn add_wave(
    alloc: Global,
    circuit: &Circuit,
    engine: &mut Engine,
    clock: bool,
    inputs: &[bool],
    text: &mut String,
) -> Option<()>
    requires { IsEngineOf circuit.now engine.old }
    ensures { IsEngineOf circuit.now engine.new }
{
    let mut bits = Vec::from_slice(alloc, engine.bits()).ok()?;
    let expected = settled(circuit, clock, inputs, &mut bits)?;
    let unrest = engine.settle(circuit, clock, inputs);
    add_bits(engine.bits(), text)?;
    add_rest(unrest, text)?;
    if unrest != expected || engine.bits() != bits.as_slice() {
        text.push_str("differs\n").ok()?;
    }
    Some(())
}

// Adds wave after wave. A wave is a word of the clock and then the inputs.
fn add_waves(
    alloc: Global,
    circuit: &Circuit,
    engine: &mut Engine,
    waves: &[&str],
    text: &mut String,
) -> Option<()>
    requires { IsEngineOf circuit.now engine.old }
{
    for wave in waves {
        let bits = bits_of(alloc, wave)?;
        let (clock, inputs) = bits.split_first()?;
        add_wave(alloc, circuit, engine, *clock, inputs, text)?;
    }
    Some(())
}

// An engine of a circuit, if there is a bit for each of its modules.
fn engine_of(alloc: Global, circuit: &Circuit, bits: Vec<bool>) -> Option<Engine>
    requires { InRange circuit.now }
    ensures { IfSome result (IsEngineOf circuit.now) }
{
    if bits.len() != circuit.modules.len() {
        return None;
    }
    Engine::new(alloc, circuit, bits).ok()
}

/// The row `engine DEVICE FUSES BITS WAVE ..`.
pub fn engine_row<R: Files>(
    rt: &R,
    alloc: Global,
    words: &[&str],
    text: &mut String,
) -> Option<()> {
    let [device, fuses, bits, waves @ ..] = words else {
        return None;
    };
    let circuit = circuit_from(rt, alloc, device, fuses)?;
    let bits = bits_of(alloc, bits)?;
    let mut engine = engine_of(alloc, &circuit, bits)?;
    add_waves(alloc, &circuit, &mut engine, waves, text)
}
