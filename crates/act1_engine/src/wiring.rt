ghost use Rattle.std.specs.Prelude.{◌≡◌, ◌*◌, ◌<◌, length, IfOk};
ghost use Rattle.act1_circuit.specs.Range.{InRange, HasSource};
ghost use Rattle.act1_engine.specs.Slots.{slot_of, slot_count, pin_source, IsWiringOf};

use act1_base::Memory;
use act1_circuit::{Circuit, Source};
use std::alloc::Global;

/// The pins of a circuit's modules by their sources. The values of the modules, of the inputs, of the
/// constants 0 and 1 and of the clock stand one behind the other in a table, and the place of a source
/// in it is its slot. Pins are numbered module by module, eight a module.
#[derive(Debug, Drop)]
pub struct Wiring {
    /// The slot of each pin.
    pub slots: Vec<u32>,
    /// For each slot one more than the last pin that has it, or 0 where none has.
    pub lasts: Vec<u32>,
    /// For each pin one more than the pin before it with the same slot, or 0 where none has it.
    pub befores: Vec<u32>,
}

// The source at a pin.
fn source_at(circuit: &Circuit, pin: usize) -> Source
    requires range { InRange circuit.now }
    requires low { pin < 8 * length circuit.now.modules }
    ensures is { result ≡ pin_source circuit.now pin }
    ensures has { HasSource circuit.now result }
{
    let sources = circuit.modules.as_slice()[pin / 8];
    sources[pin % 8]
}

// The slot of a source.
fn slot_of(circuit: &Circuit, source: Source) -> usize
    requires range { InRange circuit.now }
    requires has { HasSource circuit.now source }
    ensures is { result ≡ slot_of circuit.now source }
    ensures within { result < slot_count circuit.now }
{
    let modules = circuit.modules.len();
    let inputs = circuit.inputs.len();
    match source {
        Source::Module(module) => usize::from(module),
        Source::Input(input) => modules + usize::from(input),
        Source::Zero => modules + inputs,
        Source::One => modules + inputs + 1,
        Source::Clock => modules + inputs + 2,
    }
}

/// The pins of a circuit, which can be walked from each source. It takes time and memory in proportion
/// to the circuit; the one error is `Memory`.
pub fn wiring_of(alloc: Global, circuit: &Circuit) -> Result<Wiring, Memory>
    requires { InRange circuit.now }
    ensures { IfOk result (λ wiring. IsWiringOf circuit.now wiring) }
{
    let pins = 8 * circuit.modules.len();
    let mut slots = Vec::new(alloc);
    let mut befores = Vec::new(alloc);
    let mut lasts = vec![in alloc; 0u32; circuit.modules.len() + circuit.inputs.len() + 3]?;
    for pin in 0..pins {
        let slot = slot_of(circuit, source_at(circuit, pin));
        befores.push(lasts[slot])?;
        lasts[slot] = pin as u32 + 1;
        slots.push(slot as u32)?;
    }
    Ok(Wiring {
        slots,
        lasts,
        befores,
    })
}
