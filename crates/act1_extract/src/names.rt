ghost use Rattle.std.specs.Prelude.{◌≡◌, ◌||◌, ◌<◌, ◌≤◌, ◌+◌, ◌++◌, ◌^◌, List, ℕ, [], ◌∷◌, if◌then◌else◌, codes, length, map, not, IfOk, OnOk};
ghost use Rattle.std.specs.List.{list_any};
ghost use Rattle.std.specs.Str.{bytes_eq};
ghost use Rattle.std.specs.Option.{option_to_list};
ghost use Rattle.act1_circuit.specs.declared.circuit.Output.{Output as CircuitOutput};
ghost use Rattle.act1_circuit.specs.declared.circuit.Start.{Start as CircuitStart};
ghost use Rattle.act1_meaning.specs.ArrayNames.{is_free, module_name, taken_names};
ghost use Rattle.act1_extract.specs.Parts.{free_names};

use act1_base::{Items, Memory, Name, write_number};
use act1_circuit::{Circuit, Output, Start};
use std::alloc::Global;

// Whether the clock has this name.
fn is_clock_name(clock: &Option<Name>, name: &[u8]) -> bool
    ensures { result ≡ list_any (bytes_eq name.now) (option_to_list clock.now) }
{
    match clock {
        Some(clock) => name == clock.as_bytes(),
        None => false,
    }
}

// Whether one of these is this name.
fn is_among(names: &[Name], name: &[u8]) -> bool
    ensures { result ≡ list_any (bytes_eq name.now) names.now }
{
    names.iter().any(|other| name == other.as_bytes())
}

// Whether an output has this name.
fn is_output_name(outputs: &[Output], name: &[u8]) -> bool
    ensures { result ≡ list_any (λ (o : CircuitOutput). bytes_eq name.now o.name) outputs.now }
{
    outputs.iter().any(|output| name == output.name.as_bytes())
}

// Whether a start has this name.
fn is_start_name(starts: &[Start], name: &[u8]) -> bool
    ensures { result ≡ list_any (λ (s : CircuitStart). bytes_eq name.now s.name) starts.now }
{
    starts.iter().any(|start| name == start.name.as_bytes())
}

// Whether one of four tests holds.
fn any_of(one: bool, two: bool, three: bool, four: bool) -> bool
    ensures { result ≡ (one || two || three || four) }
{
    one || two || three || four
}

// Whether the clock, an input, an output or a start has this name.
#[tactic(auto, using(crate::proofs::FreeNames::taken_any))]
fn is_taken(circuit: &Circuit, name: &[u8]) -> bool
    ensures { result ≡ list_any (bytes_eq name.now) (taken_names circuit.now) }
{
    let is_clock = is_clock_name(&circuit.clock, name);
    let is_input = is_among(circuit.inputs.as_slice(), name);
    let is_output = is_output_name(circuit.outputs.as_slice(), name);
    let is_start = is_start_name(circuit.starts.as_slice(), name);
    any_of(is_clock, is_input, is_output, is_start)
}

// `m` and a number.
fn module_name(alloc: Global, number: u64) -> Result<Name, Memory>
    ensures { IfOk result (λ name. name ≡ module_name number) }
{
    let mut bytes = Vec::new(alloc);
    bytes.push(b'm')?;
    write_number(&mut bytes, number)?;
    Name::new(alloc, bytes.as_slice())
}

// Adds `m` and this number, if it isn't taken.
fn add_if_free(
    alloc: Global,
    names: &mut Vec<Name>,
    circuit: &Circuit,
    number: u64,
) -> Result<(), Memory>
    ensures { OnOk result (names.new.items ≡ names.old.items ++ (if is_free circuit.now number then module_name number ∷ [] else [])) }
{
    let name = module_name(alloc, number)?;
    if !is_taken(circuit, name.as_bytes()) {
        names.push(name)?;
    }
    Ok(())
}

/// The names `m` with a number below this one that aren't taken, in the order of their numbers.
pub fn free_names(alloc: Global, circuit: &Circuit, limit: u64) -> Result<Vec<Name>, Memory>
    ensures { IfOk result (λ names. names.items ≡ free_names circuit.now limit) }
{
    let mut names = Vec::new(alloc);
    for number in 0..limit {
        add_if_free(alloc, &mut names, circuit, number)?;
    }
    Ok(names)
}
