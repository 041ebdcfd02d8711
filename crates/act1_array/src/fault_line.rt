ghost use Rattle.std.specs.Prelude.{◌≡◌, ◌++◌, ◌∷◌, [], codes, OnOk};
ghost use Rattle.std.specs.Fmt.{decimal};
ghost use Rattle.act1_base.specs.Words.{text_line};
ghost use Rattle.act1_device.specs.Pins.{pin_name};
ghost use Rattle.act1_circuit.specs.SourceWords.{source_word};
ghost use Rattle.act1_array.specs.FaultWords.{array_fault_words};

use crate::fault::ArrayFault;
use act1_base::{Memory, add_number, add_word, write_word};
use act1_circuit::{Source, Spot, add_source};
use act1_device::name_of_pin;

// Adds a blank and the word of a source.
fn add_source_word(text: &mut Vec<u8>, source: Source) -> Result<(), Memory>
    ensures { OnOk result (text.new.items ≡ text.old.items ++ 32 ∷ source_word source) }
{
    text.push(b' ')?;
    add_source(text, source)
}

// Two sources that are joined.
fn write_driven(text: &mut Vec<u8>, first: Source, second: Source) -> Result<(), Memory>
    ensures { OnOk result (text.new.items ≡ text.old.items ++ text_line (codes "driven" ∷ source_word first ∷ source_word second ∷ [])) }
{
    text.extend_from_slice(b"driven")?;
    add_source_word(text, first)?;
    add_source_word(text, second)?;
    text.push(b'\n')?;
    Ok(())
}

// A pin that is joined to no source.
fn write_floating(text: &mut Vec<u8>, spot: Spot, pin: u8) -> Result<(), Memory>
    ensures { OnOk result (text.new.items ≡ text.old.items ++ text_line (codes "floating" ∷ decimal spot.row ∷ decimal spot.column ∷ pin_name pin ∷ [])) }
{
    text.extend_from_slice(b"floating")?;
    add_number(text, u64::from(spot.row))?;
    add_number(text, u64::from(spot.column))?;
    add_word(text, name_of_pin(pin))?;
    text.push(b'\n')?;
    Ok(())
}

// An output that is joined to no source.
fn write_unfed(text: &mut Vec<u8>, output: u16) -> Result<(), Memory>
    ensures { OnOk result (text.new.items ≡ text.old.items ++ text_line (codes "unfed" ∷ decimal output ∷ [])) }
{
    text.extend_from_slice(b"unfed")?;
    add_number(text, u64::from(output))?;
    text.push(b'\n')?;
    Ok(())
}

// Two words and a spot.
fn write_at(text: &mut Vec<u8>, first: &[u8], second: &[u8], spot: Spot) -> Result<(), Memory>
    ensures { OnOk result (text.new.items ≡ text.old.items ++ text_line (first.now ∷ second.now ∷ decimal spot.row ∷ decimal spot.column ∷ [])) }
{
    text.extend_from_slice(first)?;
    add_word(text, second)?;
    add_number(text, u64::from(spot.row))?;
    add_number(text, u64::from(spot.column))?;
    text.push(b'\n')?;
    Ok(())
}

/// Adds the line of a refusal: `driven SOURCE SOURCE`, `floating ROW COLUMN PIN`, `unfed OUTPUT`,
/// `start unused ROW COLUMN` or `memory`. The one error is `Memory`, after which a part of the line
/// may have been added.
pub fn write_array_fault(text: &mut Vec<u8>, fault: ArrayFault) -> Result<(), Memory>
    ensures { OnOk result (text.new.items ≡ text.old.items ++ text_line (array_fault_words fault)) }
{
    match fault {
        ArrayFault::Driven { first, second } => write_driven(text, first, second),
        ArrayFault::Floating { spot, pin } => write_floating(text, spot, pin),
        ArrayFault::Unfed { output } => write_unfed(text, output),
        ArrayFault::StartUnused { spot } => write_at(text, b"start", b"unused", spot),
        ArrayFault::Memory => write_word(text, b"memory"),
    }
}
