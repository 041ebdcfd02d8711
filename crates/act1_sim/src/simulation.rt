ghost use Rattle.std.specs.Prelude.{◌≡◌, ◌≢◌, ◌≤◌, length, map, AllPairs, Ok, IfOk, IfErr};
ghost use Rattle.std.specs.Str.Lines.{lines};
ghost use Rattle.act1_circuit.specs.declared.circuit.Start.{Start};
ghost use Rattle.act1_circuit.specs.Range.{InRange};
ghost use Rattle.act1_engine.specs.Engines.{engine_bits, IsEngineOf};
ghost use Rattle.act1_fuses.specs.Rules.{KeepsRules};
ghost use Rattle.act1_array.specs.Gives.{Gives};
ghost use Rattle.act1_sim.specs.Cycles.{outputs, Rests};
ghost use Rattle.act1_sim.specs.Vectors.{bits_of, output_text};
ghost use Rattle.act1_sim.specs.Simulation.{Simulates, RefusesToSimulate};
ghost use Rattle.act1_sim.specs.SimulationSteps.{ArrayStops, UnsettledBy};

use crate::begin::first_engine;
use crate::cycle::run_cycle;
use crate::fault::SimFault;
use crate::vectors::{VectorLines, first_no_vector};
use act1_array::{ArrayFault, circuit_of};
use act1_base::Stop;
use act1_circuit::Placed;
use act1_device::Device;
use act1_engine::Engine;
use act1_fuses::FuseFile;
use std::alloc::Global;

// The circuit of the array.
fn circuit_in(alloc: Global, device: &Device, file: &FuseFile) -> Result<Placed, SimFault>
    requires { KeepsRules device.now file.now }
    ensures ok { IfOk result (λ placed. Gives device.now file.now (Ok placed)) }
    ensures in_range { IfOk result (λ placed. InRange placed.circuit) }
    ensures apart { IfOk result (λ placed. AllPairs (λ (s t : Start). s.«module» ≢ t.«module») placed.circuit.starts) }
    ensures err { IfErr result (ArrayStops device.now file.now) }
{
    match circuit_of(alloc, device, file) {
        Ok(placed) => Ok(placed),
        Err(ArrayFault::Memory) => Err(SimFault::Memory),
        Err(fault) => Err(SimFault::Array(fault)),
    }
}

// The cycles of the lines of a text, one after the other.
fn run_lines(
    alloc: Global,
    placed: &Placed,
    vectors: &[u8],
    engine: &mut Engine,
) -> Result<Vec<u8>, SimFault>
    requires few { length vectors.now ≤ 4000000000 }
    requires is { IsEngineOf placed.now.circuit engine.old }
    requires spots { length placed.now.spots ≡ length placed.now.circuit.modules }
    ensures rests { IfOk result (λ text. Rests placed.now.circuit (engine_bits engine.old) (map bits_of (lines vectors.now))) }
    ensures text { IfOk result (λ text. text.items ≡ output_text (outputs placed.now.circuit (engine_bits engine.old) (map bits_of (lines vectors.now)))) }
    ensures err { IfErr result (UnsettledBy placed.now (engine_bits engine.old) (map bits_of (lines vectors.now))) }
{
    let mut text = Vec::new(alloc);
    let mut cycle = 0;
    for line in VectorLines::new(vectors) {
        match run_cycle(alloc, &placed.circuit, line, engine, &mut text) {
            Ok(()) => {}
            Err(Stop::Fault(module)) => {
                return Err(SimFault::Unsettled {
                    cycle,
                    spot: placed.spots.as_slice()[usize::from(module)],
                });
            }
            Err(Stop::Memory) => return Err(SimFault::Memory),
        }
        cycle += 1;
    }
    Ok(text)
}

/// Simulates an array: what its outputs show in each cycle, a line each. In a cycle the inputs are
/// set to the line's characters and the clock is 0, the modules fire in a wave in site order, the
/// outputs are read, the clock is 1, and a second wave is fired. A module with a start of init 0 or 1
/// starts so, and every other module starts as `fill`.
///
/// `vectors` is a text of one line a cycle, with one character `0` or `1` per input; a carriage return
/// before a line feed belongs to the line's end, and the last line may lack its line feed.
///
/// The refusals come in this order, each exactly where its cause stands: `Array` where the array isn't
/// sound, `Vector` at the first line that is no vector, `Unsettled` at the first wave after which a
/// firing would still change a bit. `Memory` where no memory was found.
pub fn simulate(
    alloc: Global,
    device: &Device,
    file: &FuseFile,
    vectors: &[u8],
    fill: bool,
) -> Result<Vec<u8>, SimFault>
    requires keeps { KeepsRules device.now file.now }
    requires few { length vectors.now ≤ 4000000000 }
    ensures ok { IfOk result (λ text. Simulates device.now file.now vectors.now fill text.items) }
    ensures err { IfErr result (RefusesToSimulate device.now file.now vectors.now fill) }
{
    let placed = circuit_in(alloc, device, file)?;
    if let Some(line) = first_no_vector(vectors, placed.circuit.inputs.len()) {
        return Err(SimFault::Vector(line));
    }
    let Ok(mut engine) = first_engine(alloc, &placed.circuit, fill) else {
        return Err(SimFault::Memory);
    };
    run_lines(alloc, &placed, vectors, &mut engine)
}
