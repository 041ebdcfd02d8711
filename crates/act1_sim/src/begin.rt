ghost use Rattle.std.specs.Prelude.{◌≡◌, ◌≢◌, ◌<◌, ◌==◌, nat_le, if◌then◌else◌, length, slice_set, All, AllPairs, IfOk};
ghost use Rattle.act1_circuit.specs.declared.circuit.Start.{Start};
ghost use Rattle.act1_circuit.specs.Range.{InRange};
ghost use Rattle.act1_engine.specs.Engines.{engine_bits, IsEngineOf};
ghost use Rattle.act1_sim.specs.Cycles.{BeginsWith};

use act1_base::Memory;
use act1_circuit::{Circuit, Start};
use act1_engine::Engine;
use std::alloc::Global;

// The module of a start gets the bit that its init says, if it says one.
fn declare(bits: &mut Vec<bool>, start: &Start)
    requires { start.now.«module» < length bits.old.items }
    ensures { bits.new.items ≡ (if nat_le start.now.init 1 then slice_set bits.old.items start.now.«module» (start.now.init == 1) else bits.old.items) }
{
    if start.init <= 1 {
        bits[usize::from(start.module)] = start.init == 1;
    }
}

// The bits with which a simulation begins: a module with a start of init 0 or 1 has that bit, and
// every other module has the fill.
fn first_bits(alloc: Global, circuit: &Circuit, fill: bool) -> Result<Vec<bool>, Memory>
    requires modules { All (λ (start : Start). start.«module» < length circuit.now.modules) circuit.now.starts }
    requires apart { AllPairs (λ (s t : Start). s.«module» ≢ t.«module») circuit.now.starts }
    ensures { IfOk result (λ bits. BeginsWith circuit.now fill bits.items) }
{
    let mut bits = vec![in alloc; fill; circuit.modules.len()]?;
    for start in circuit.starts.as_slice() {
        declare(&mut bits, start);
    }
    Ok(bits)
}

/// An engine of the circuit that has the bits with which a simulation begins: a module with a start of
/// init 0 or 1 has that bit, and every other module has the fill.
pub fn first_engine(alloc: Global, circuit: &Circuit, fill: bool) -> Result<Engine, Memory>
    requires range { InRange circuit.now }
    requires apart { AllPairs (λ (s t : Start). s.«module» ≢ t.«module») circuit.now.starts }
    ensures is { IfOk result (IsEngineOf circuit.now) }
    ensures begins { IfOk result (λ engine. BeginsWith circuit.now fill (engine_bits engine)) }
{
    let bits = first_bits(alloc, circuit, fill)?;
    Engine::new(alloc, circuit, bits)
}
