ghost use Rattle.std.specs.Prelude.{◌≡◌, ◌∷◌, [], ◌++◌, map, codes, IfOk, OnOk};
ghost use Rattle.std.specs.Fmt.{decimal};
ghost use Rattle.std.specs.List.{flat_map};
ghost use Rattle.act1_base.specs.Words.{text_line, text_of_lines};
ghost use Rattle.act1_circuit.specs.SourceWords.{source_word};
ghost use Rattle.act1_plan.specs.Texts.{k_words, clock_words, input_words, output_words, start_words, module_words, modules_words, ports_words, spot_text, plan_text};

use crate::plan::Plan;
use act1_base::{Memory, Name, add_number, add_word, write_named};
use act1_circuit::{Circuit, Output, Source, Spot, Start, add_source};
use std::alloc::Global;

// Adds a blank and the word of a source.
fn add_source_word(text: &mut Vec<u8>, source: Source) -> Result<(), Memory>
    ensures { OnOk result (text.new.items ≡ text.old.items ++ 32 ∷ source_word source) }
{
    text.push(b' ')?;
    add_source(text, source)
}

// Adds the line of `k`.
fn write_k(text: &mut Vec<u8>, k: u8) -> Result<(), Memory>
    ensures { OnOk result (text.new.items ≡ text.old.items ++ text_line (k_words k)) }
{
    text.push(b'k')?;
    add_number(text, u64::from(k))?;
    text.push(b'\n')?;
    Ok(())
}

// Adds the line of the clock, if it has a name.
fn write_clock(text: &mut Vec<u8>, clock: &Option<Name>) -> Result<(), Memory>
    ensures { OnOk result (text.new.items ≡ text.old.items ++ text_of_lines (clock_words clock.now)) }
{
    match clock {
        Some(name) => write_named(text, b"clock", name.as_bytes()),
        None => Ok(()),
    }
}

// Adds the lines of the inputs.
#[tactic(auto, using(act1_base::proofs::TextGrows::text_more))]
fn write_inputs(text: &mut Vec<u8>, inputs: &[Name]) -> Result<(), Memory>
    ensures { OnOk result (text.new.items ≡ text.old.items ++ text_of_lines (map input_words inputs.now)) }
{
    for name in inputs {
        write_named(text, b"in", name.as_bytes())?;
    }
    Ok(())
}

// Adds the line of an output.
fn write_output(text: &mut Vec<u8>, output: &Output) -> Result<(), Memory>
    ensures { OnOk result (text.new.items ≡ text.old.items ++ text_line (output_words output.now)) }
{
    text.extend_from_slice(b"out")?;
    add_source_word(text, output.source)?;
    add_word(text, output.name.as_bytes())?;
    text.push(b'\n')?;
    Ok(())
}

// Adds the lines of the outputs.
#[tactic(auto, using(act1_base::proofs::TextGrows::text_more))]
fn write_outputs(text: &mut Vec<u8>, outputs: &[Output]) -> Result<(), Memory>
    ensures { OnOk result (text.new.items ≡ text.old.items ++ text_of_lines (map output_words outputs.now)) }
{
    for output in outputs {
        write_output(text, output)?;
    }
    Ok(())
}

// Adds the line of a start.
fn write_start(text: &mut Vec<u8>, start: &Start) -> Result<(), Memory>
    ensures { OnOk result (text.new.items ≡ text.old.items ++ text_line (start_words start.now)) }
{
    text.extend_from_slice(b"start")?;
    add_number(text, u64::from(start.module))?;
    add_number(text, u64::from(start.init))?;
    add_word(text, start.name.as_bytes())?;
    text.push(b'\n')?;
    Ok(())
}

// Adds the lines of the starts.
#[tactic(auto, using(act1_base::proofs::TextGrows::text_more))]
fn write_starts(text: &mut Vec<u8>, starts: &[Start]) -> Result<(), Memory>
    ensures { OnOk result (text.new.items ≡ text.old.items ++ text_of_lines (map start_words starts.now)) }
{
    for start in starts {
        write_start(text, start)?;
    }
    Ok(())
}

// Adds the words of the pins, each after a blank.
#[tactic(auto, using(act1_base::proofs::TextGrows::words_more))]
fn add_pins(text: &mut Vec<u8>, pins: &[Source]) -> Result<(), Memory>
    ensures { OnOk result (text.new.items ≡ text.old.items ++ flat_map (λ w. 32 ∷ w) (map source_word pins.now)) }
{
    for pin in pins {
        add_source_word(text, *pin)?;
    }
    Ok(())
}

// Adds the words of a module's line but for its pins.
fn add_spot(text: &mut Vec<u8>, spot: Spot) -> Result<(), Memory>
    ensures { OnOk result (text.new.items ≡ text.old.items ++ spot_text spot) }
{
    text.extend_from_slice(b"module")?;
    add_number(text, u64::from(spot.row))?;
    add_number(text, u64::from(spot.column))
}

// Adds the line of a module.
#[tactic(auto, using(crate::proofs::PlanWrites::module_line))]
fn write_module(text: &mut Vec<u8>, spot: Spot, pins: &[Source]) -> Result<(), Memory>
    ensures { OnOk result (text.new.items ≡ text.old.items ++ text_line (module_words spot pins.now)) }
{
    add_spot(text, spot)?;
    add_pins(text, pins)?;
    text.push(b'\n')?;
    Ok(())
}

// Adds the line of each module that has a spot.
#[tactic(auto, using(crate::proofs::PlanWrites::modules_more))]
fn write_modules(text: &mut Vec<u8>, spots: &[Spot], modules: &[[Source; 8]]) -> Result<(), Memory>
    ensures { OnOk result (text.new.items ≡ text.old.items ++ text_of_lines (modules_words spots.now modules.now)) }
{
    for at in 0..spots.len().min(modules.len()) {
        write_module(text, spots[at], &modules[at])?;
    }
    Ok(())
}

// Adds the lines of a circuit but for its modules.
fn write_ports(text: &mut Vec<u8>, circuit: &Circuit) -> Result<(), Memory>
    ensures { OnOk result (text.new.items ≡ text.old.items ++ text_of_lines (ports_words circuit.now)) }
{
    write_clock(text, &circuit.clock)?;
    write_inputs(text, circuit.inputs.as_slice())?;
    write_outputs(text, circuit.outputs.as_slice())?;
    write_starts(text, circuit.starts.as_slice())
}

/// The one text of a plan: `device NAME`, `k K`, `clock NAME` where the clock has one, for each input `in NAME`,
/// for each output `out SOURCE NAME`, for each start `start MODULE INIT NAME`, and for each module `module ROW
/// COLUMN` and the eight sources of its pins, each a line of words that are parted by one space. A source is `0`,
/// `1`, `c` for the clock, `iN` for input N or `mN` for module N. Numbers are spelled by decimal digits without a
/// leading zero. The format is this project's own.
pub fn plan_text(alloc: Global, plan: &Plan) -> Result<Vec<u8>, Memory>
    ensures { IfOk result (λ text. text.items ≡ plan_text plan.now) }
{
    let mut text = Vec::new(alloc);
    write_named(&mut text, b"device", plan.device.as_bytes())?;
    write_k(&mut text, plan.k)?;
    write_ports(&mut text, &plan.placed.circuit)?;
    let spots = plan.placed.spots.as_slice();
    write_modules(&mut text, spots, plan.placed.circuit.modules.as_slice())?;
    Ok(text)
}
