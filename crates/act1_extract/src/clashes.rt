ghost use Rattle.std.specs.Prelude.{◌≡◌, ◌≤◌, ◌++◌, ◌&&◌, not, length, map, List, ℕ};
ghost use Rattle.std.specs.List.{list_any};
ghost use Rattle.std.specs.Str.{bytes_eq};
ghost use Rattle.act1_circuit.specs.declared.circuit.Start.{Start as CircuitStart};
ghost use Rattle.act1_circuit.specs.PairFormSteps.{IsLeastWith};
ghost use Rattle.act1_meaning.specs.ArrayNames.{IsClash, is_own_signal};
ghost use Rattle.act1_extract.specs.Gives.{is_clash, is_signal_name};

use crate::outputs::is_own_signal;
use act1_base::Name;
use act1_circuit::{Circuit, Output, Start};

// Whether an input has this name.
fn is_input_name(inputs: &[Name], name: &[u8]) -> bool
    ensures { result ≡ list_any (λ (input : List ℕ). bytes_eq input name.now) inputs.now }
{
    inputs.iter().any(|input| input.as_bytes() == name)
}

// Whether a latch has this name.
fn is_latch_name(starts: &[Start], name: &[u8]) -> bool
    ensures { result ≡ list_any (λ (s : CircuitStart). bytes_eq s.name name.now) starts.now }
{
    starts.iter().any(|start| start.name.as_bytes() == name)
}

// Whether an input or a latch has this name.
fn is_signal_name(circuit: &Circuit, name: &[u8]) -> bool
    ensures { result ≡ is_signal_name circuit.now name.now }
{
    is_input_name(circuit.inputs.as_slice(), name) || is_latch_name(circuit.starts.as_slice(), name)
}

// Whether an output has the name of an input or a latch and another source.
fn is_clash(circuit: &Circuit, output: &Output) -> bool
    ensures { result ≡ is_clash circuit.now output.now }
{
    !is_own_signal(circuit, output) && is_signal_name(circuit, output.name.as_bytes())
}

/// The least output that has the name of an input or a latch and another source.
#[tactic(auto, using(crate::proofs::Stops::clash_is, crate::proofs::Stops::clash_step, crate::proofs::Stops::clash_none))]
pub fn first_clash(circuit: &Circuit) -> Option<u16>
    requires { length circuit.now.outputs ≤ 65535 }
    ensures { IsLeastWith (IsClash circuit.now) result }
{
    let outputs = circuit.outputs.as_slice();
    for output in 0..outputs.len() {
        if is_clash(circuit, &outputs[output]) {
            return Some(output as u16);
        }
    }
    None
}
