ghost use Rattle.std.specs.Prelude.{◌≡◌, ◌<◌, ◌≤◌, ◌^◌, ℕ, List, length, take, IfOk, IfSome, IfNone};
ghost use Rattle.act1_circuit.specs.Firing.{fire_all, site_wave, IsAtRest, IsLeastUnrest, IsWave};
ghost use Rattle.act1_circuit.specs.PairForm.{IsPairForm};
ghost use Rattle.act1_circuit.specs.Range.{InRange};
ghost use Rattle.act1_engine.specs.Engines.{engine_bits, HasConstants, IsEngineOf};
ghost use Rattle.act1_engine.specs.Marking.{AreMarksAt, AreUnmarked, mark};

use crate::marks::{Marks, note};
use crate::rounds::fire_wave;
use crate::setting::set_sources;
use crate::wiring::{Wiring, wiring_of};
use act1_base::Memory;
use act1_circuit::{Circuit, every_order};
use std::alloc::Global;

/// The bits of a circuit's modules with what it takes to fire waves in the time of what changes: the
/// readers of each source, the inputs and the clock as they were set last, and marks at the modules
/// that may give another bit than they have. It is made once per circuit.
#[derive(Debug, Drop)]
pub struct Engine {
    modules: usize,
    wiring: Wiring,
    values: Vec<bool>,
    marks: Marks,
}

// The table of values: the modules have these bits, and the inputs and the clock are 0.
fn table_of(circuit: &Circuit, bits: Vec<bool>) -> Result<Vec<bool>, Memory>
    requires { length bits.items ≡ length circuit.now.modules }
    ensures constants { IfOk result (λ values. HasConstants circuit.now values.items) }
    ensures bits { IfOk result (λ values. take (length circuit.now.modules) values.items ≡ bits.items) }
{
    let mut values = bits;
    for _input in 0..circuit.inputs.len() {
        values.push(false)?;
    }
    values.push(false)?;
    values.push(true)?;
    values.push(false)?;
    Ok(values)
}

// Marks at all modules.
fn all_marked(alloc: Global, modules: usize) -> Result<Marks, Memory>
    requires { modules < 2 ^ 32 }
    ensures marks { IfOk result (AreMarksAt modules modules) }
    ensures all { IfOk result (λ marks. (k : ℕ) → k < modules → mark marks.words.items k ≡ 1) }
{
    let mut marks = Marks {
        words: vec![in alloc; 0u64; modules / 64 + 1]?,
        end: 0,
        low: modules,
        high: 0,
    };
    for module in 0..modules {
        note(&mut marks, module, modules);
    }
    Ok(marks)
}

impl Engine {
    /// An engine whose modules have these bits; its inputs and its clock are 0. It takes time and
    /// memory in proportion to the circuit. The one error is `Memory`.
    pub fn new(alloc: Global, circuit: &Circuit, bits: Vec<bool>) -> Result<Engine, Memory>
        requires range { InRange circuit.now }
        requires one_each { length bits.items ≡ length circuit.now.modules }
        ensures is { IfOk result (IsEngineOf circuit.now) }
        ensures bits { IfOk result (λ engine. engine_bits engine ≡ bits.items) }
    {
        let modules = circuit.modules.len();
        let wiring = wiring_of(alloc, circuit)?;
        let values = table_of(circuit, bits)?;
        let marks = all_marked(alloc, modules)?;
        Ok(Engine {
            modules,
            wiring,
            values,
            marks,
        })
    }

    /// The bits of the modules.
    pub fn bits(&self) -> &[bool]
        requires { self.now.modules ≤ length self.now.values.items }
        ensures { result.now ≡ engine_bits self.now }
    {
        &self.values[..self.modules]
    }

    /// Sets the inputs and the clock, and fires the wave of as many rounds as there are modules, each
    /// in module order: the bits become what that leaves. The answer is `Some` exactly where a firing
    /// would still change a bit, with the least module whose firing does. In a circuit in pair form
    /// none does, and every other order of firing leaves the same bits. A module fires only where one
    /// of its sources has changed since it last did. It takes no memory.
    pub fn settle(&mut self, circuit: &Circuit, clock: bool, inputs: &[bool]) -> Option<u16>
        requires { IsEngineOf circuit.now self.old }
        ensures is { IsEngineOf circuit.now self.new }
        ensures wave { engine_bits self.new ≡ fire_all circuit.now clock inputs.now (engine_bits self.old) (site_wave (length circuit.now.modules)) }
        ensures none { IfNone result (IsAtRest circuit.now clock inputs.now (engine_bits self.new)) }
        ensures some { IfSome result (IsLeastUnrest circuit.now clock inputs.now (engine_bits self.new)) }
        ensures pair_form { IsPairForm circuit.now → (result ≡ None) × ((ms : List ℕ) → IsWave (length circuit.now.modules) ms → fire_all circuit.now clock inputs.now (engine_bits self.old) ms ≡ engine_bits self.new) }
    {
        every_order();
        set_sources(
            &self.wiring,
            &mut self.values,
            &mut self.marks,
            circuit,
            clock,
            inputs,
        );
        fire_wave(
            &self.wiring,
            &mut self.values,
            &mut self.marks,
            self.modules,
        )
    }
}
