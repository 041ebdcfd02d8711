ghost use Rattle.std.specs.Prelude.{◌≡◌, ◌<◌, ◌^◌, ℕ, List, length, slice_index_or, false, IfSome, IfNone};
ghost use Rattle.act1_circuit.specs.Firing.{source_value, fired, fire, fire_all, site_order, site_wave, IsAtRest, IsLeastUnrest, IsWave};
ghost use Rattle.act1_circuit.specs.PairForm.{IsPairForm};
ghost use Rattle.act1_circuit.specs.Range.{InRange};

use crate::circuit::{Circuit, Source};
use crate::laws::every_order;
use act1_logic::module_value;

// The bit at a place, and 0 past the end.
fn value_at(values: &[bool], at: u16) -> bool
    ensures { result ≡ slice_index_or values.now at false }
{
    match values.get(usize::from(at)) {
        Some(value) => *value,
        None => false,
    }
}

/// The value of a source at this clock, with these inputs and module bits. A bit that is missing
/// counts as 0. It takes no memory.
pub fn value_of(source: Source, clock: bool, inputs: &[bool], bits: &[bool]) -> bool
    ensures { result ≡ source_value clock inputs.now bits.now source }
{
    match source {
        Source::Zero => false,
        Source::One => true,
        Source::Clock => clock,
        Source::Input(input) => value_at(inputs, input),
        Source::Module(module) => value_at(bits, module),
    }
}

/// What a module gives at the values of its pins' sources: the bit that it fires. `inputs` and `bits`
/// have a bit for each input and each module; one that is missing counts as 0. It takes no memory.
pub fn fire(circuit: &Circuit, clock: bool, inputs: &[bool], bits: &[bool], module: u16) -> bool
    requires { «module» < length circuit.now.modules }
    ensures { result ≡ fired circuit.now clock inputs.now bits.now «module» }
{
    let modules = circuit.modules.as_slice();
    let [a0, a1, sa, b0, b1, sb, s0, s1] = modules[usize::from(module)];
    module_value([
        value_of(a0, clock, inputs, bits),
        value_of(a1, clock, inputs, bits),
        value_of(sa, clock, inputs, bits),
        value_of(b0, clock, inputs, bits),
        value_of(b1, clock, inputs, bits),
        value_of(sb, clock, inputs, bits),
        value_of(s0, clock, inputs, bits),
        value_of(s1, clock, inputs, bits),
    ])
}

// The module fires, and its bit becomes what it gives. Whether that changed the bit.
fn fire_one(circuit: &Circuit, clock: bool, inputs: &[bool], bits: &mut [bool], module: u16) -> bool
    requires one_each { length bits.old ≡ length circuit.now.modules }
    requires within { «module» < length bits.old }
    ensures fires { bits.new ≡ fire circuit.now clock inputs.now bits.old «module» }
    ensures same { result ≡ false → bits.new ≡ bits.old }
{
    let bit = fire(circuit, clock, inputs, bits, module);
    let changed = bit != bits[usize::from(module)];
    bits[usize::from(module)] = bit;
    changed
}

// Each module fires once, in order. Whether that changed a bit.
fn fire_round(circuit: &Circuit, clock: bool, inputs: &[bool], bits: &mut [bool]) -> bool
    requires one_each { length bits.old ≡ length circuit.now.modules }
    requires few { length bits.old < 2 ^ 16 }
    ensures fires { bits.new ≡ fire_all circuit.now clock inputs.now bits.old (site_order (length bits.old)) }
    ensures rests { result ≡ false → (bits.new ≡ bits.old) × IsAtRest circuit.now clock inputs.now bits.new }
{
    let mut changed = false;
    for module in 0..bits.len() {
        changed |= fire_one(circuit, clock, inputs, bits, module as u16);
    }
    changed
}

// The least module whose firing changes a bit.
fn unrest(circuit: &Circuit, clock: bool, inputs: &[bool], bits: &[bool]) -> Option<u16>
    requires one_each { length bits.now ≡ length circuit.now.modules }
    requires few { length bits.now < 2 ^ 16 }
    ensures none { IfNone result (IsAtRest circuit.now clock inputs.now bits.now) }
    ensures some { IfSome result (IsLeastUnrest circuit.now clock inputs.now bits.now) }
{
    for (module, bit) in bits.iter().enumerate() {
        if fire(circuit, clock, inputs, bits, module as u16) != *bit {
            return Some(module as u16);
        }
    }
    None
}

// Fires the wave in site order, and looks for the least module that doesn't rest. A round that changes
// nothing leaves a circuit at rest, so it is the last one that is fired.
fn fire_wave(circuit: &Circuit, clock: bool, inputs: &[bool], modules: &mut [bool]) -> Option<u16>
    requires one_each { length modules.old ≡ length circuit.now.modules }
    requires few { length modules.old < 2 ^ 16 }
    ensures wave { modules.new ≡ fire_all circuit.now clock inputs.now modules.old (site_wave (length modules.old)) }
    ensures none { IfNone result (IsAtRest circuit.now clock inputs.now modules.new) }
    ensures some { IfSome result (IsLeastUnrest circuit.now clock inputs.now modules.new) }
{
    for _round in 0..modules.len() {
        if !fire_round(circuit, clock, inputs, modules) {
            return None;
        }
    }
    unrest(circuit, clock, inputs, modules)
}

/// Fires the wave of as many rounds as there are modules, each in module order: `modules` becomes
/// what it leaves. The answer is `Some` exactly where a firing would still change a bit, with the
/// least module whose firing does. In a circuit in pair form none does, and every other order of firing
/// leaves the same bits. It takes no memory.
pub fn settle(circuit: &Circuit, clock: bool, inputs: &[bool], modules: &mut [bool]) -> Option<u16>
    requires one_each { length modules.old ≡ length circuit.now.modules }
    requires few { length modules.old < 2 ^ 16 }
    ensures wave { modules.new ≡ fire_all circuit.now clock inputs.now modules.old (site_wave (length modules.old)) }
    ensures none { IfNone result (IsAtRest circuit.now clock inputs.now modules.new) }
    ensures some { IfSome result (IsLeastUnrest circuit.now clock inputs.now modules.new) }
    ensures pair_form { InRange circuit.now → IsPairForm circuit.now → (result ≡ None) × ((ms : List ℕ) → IsWave (length circuit.now.modules) ms → fire_all circuit.now clock inputs.now modules.old ms ≡ modules.new) }
{
    every_order();
    fire_wave(circuit, clock, inputs, modules)
}
