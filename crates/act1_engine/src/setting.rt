ghost use Rattle.std.specs.Prelude.{◌≡◌, ◌≢◌, ℕ, ◌+◌, ◌*◌, ◌<◌, ◌≤◌, length, slice_index_or, slice_set, take, false};
ghost use Rattle.act1_circuit.specs.declared.circuit.Circuit.{Circuit};
ghost use Rattle.act1_engine.specs.Slots.{IsLinked, IsWiringOf};
ghost use Rattle.act1_engine.specs.Turns.{value};
ghost use Rattle.act1_engine.specs.Marking.{Adds, AreReadersMarked};
ghost use Rattle.act1_engine.specs.Engines.{IsReady, IsSet};

use crate::marks::{Marks, note};
use crate::wiring::Wiring;
use act1_circuit::Circuit;

// Marks the modules of all pins at a slot, in a round that has come as far as the module `at`.
fn mark_readers(wiring: &Wiring, marks: &mut Marks, slot: usize, at: usize)
    requires linked { IsLinked wiring.now }
    requires low { slot < length wiring.now.lasts.items }
    requires room { length wiring.now.slots.items ≤ 512 * length marks.old.words.items }
    ensures readers { AreReadersMarked wiring.now.slots.items slot marks.new.words.items }
    ensures adds { (n : ℕ) → length wiring.now.slots.items ≡ 8 * n → Adds n at marks.old marks.new }
{
    let mut link = wiring.lasts[slot] as usize;
    while link > 0 {
        note(marks, (link - 1) / 8, at);
        link = wiring.befores[link - 1] as usize;
    }
}

/// Sets the value at a slot in a round that has come as far as the module `at`. If that changes it,
/// the modules of all pins at the slot are marked.
pub fn set_value(
    wiring: &Wiring,
    values: &mut Vec<bool>,
    marks: &mut Marks,
    slot: usize,
    bit: bool,
    at: usize,
)
    requires linked { IsLinked wiring.now }
    requires low { slot < length wiring.now.lasts.items }
    requires value { slot < length values.old.items }
    requires room { length wiring.now.slots.items ≤ 512 * length marks.old.words.items }
    ensures values { values.new.items ≡ slice_set values.old.items slot bit }
    ensures readers { value values.old.items slot ≢ bit → AreReadersMarked wiring.now.slots.items slot marks.new.words.items }
    ensures adds { (n : ℕ) → length wiring.now.slots.items ≡ 8 * n → Adds n at marks.old marks.new }
{
    if values[slot] != bit {
        values[slot] = bit;
        mark_readers(wiring, marks, slot, at);
    }
}

// The input of this number, and 0 past the end.
fn input_at(inputs: &[bool], input: usize) -> bool
    ensures { result ≡ slice_index_or inputs.now input false }
{
    match inputs.get(input) {
        Some(bit) => *bit,
        None => false,
    }
}

/// Sets the inputs and the clock of a circuit between two waves: only readers of what changes are
/// marked. An input that is missing is 0.
pub fn set_sources(
    wiring: &Wiring,
    values: &mut Vec<bool>,
    marks: &mut Marks,
    circuit: &Circuit,
    clock: bool,
    inputs: &[bool],
)
    requires wiring { IsWiringOf circuit.now wiring.now }
    requires ready { IsReady circuit.now wiring.now values.old.items marks.old }
    ensures ready { IsReady circuit.now wiring.now values.new.items marks.new }
    ensures set { IsSet circuit.now clock inputs.now values.new.items }
    ensures same { take (length circuit.now.modules) values.new.items ≡ take (length circuit.now.modules) values.old.items }
{
    let modules = circuit.modules.len();
    let width = circuit.inputs.len();
    for input in 0..width {
        set_value(
            wiring,
            values,
            marks,
            modules + input,
            input_at(inputs, input),
            modules,
        );
    }
    set_value(wiring, values, marks, modules + width + 2, clock, modules);
}
