ghost use Rattle.std.specs.Prelude.{◌≡◌, ◌++◌, ◌∷◌, [], codes, OnOk};
ghost use Rattle.std.specs.Fmt.{decimal};
ghost use Rattle.act1_base.specs.Words.{text_line};
ghost use Rattle.act1_extract.specs.FaultWords.{extract_fault_words, form_word};

use crate::fault::{ExtractFault, FormKind};
use act1_array::write_array_fault;
use act1_base::{Memory, add_number, add_word, write_word};
use act1_circuit::Spot;

// The word of a rule of pair form.
fn form_word(kind: FormKind) -> &'static [u8]
    ensures { result.now ≡ form_word kind }
{
    match kind {
        FormKind::Clocked => b"clocked",
        FormKind::Ring => b"ring",
        FormKind::Start => b"start",
    }
}

// Two words and a spot.
fn write_at(text: &mut Vec<u8>, first: &[u8], second: &[u8], spot: Spot) -> Result<(), Memory>
    ensures { OnOk result (text.new.items ≡ text.old.items ++ text_line (first.now ∷ second.now ∷ decimal spot.row ∷ decimal spot.column ∷ [])) }
{
    text.extend_from_slice(first)?;
    add_word(text, second)?;
    add_number(text, u64::from(spot.row))?;
    add_number(text, u64::from(spot.column))?;
    text.push(b'\n')?;
    Ok(())
}

// An output whose source is the clock.
fn write_clock_out(text: &mut Vec<u8>, output: u16) -> Result<(), Memory>
    ensures { OnOk result (text.new.items ≡ text.old.items ++ text_line (codes "form" ∷ codes "clockout" ∷ decimal output ∷ [])) }
{
    text.extend_from_slice(b"form")?;
    add_word(text, b"clockout")?;
    add_number(text, u64::from(output))?;
    text.push(b'\n')?;
    Ok(())
}

// An output whose name clashes.
fn write_clash(text: &mut Vec<u8>, output: u16) -> Result<(), Memory>
    ensures { OnOk result (text.new.items ≡ text.old.items ++ text_line (codes "clash" ∷ decimal output ∷ [])) }
{
    text.extend_from_slice(b"clash")?;
    add_number(text, u64::from(output))?;
    text.push(b'\n')?;
    Ok(())
}

/// Adds the line of a refusal: that of the array's own refusal, `form clocked ROW COLUMN`,
/// `form clockout OUTPUT`, `form ring ROW COLUMN`, `form start ROW COLUMN`, `clash OUTPUT` or `memory`.
/// The one error is `Memory`, after which a part of the line may have been added.
pub fn write_extract_fault(text: &mut Vec<u8>, fault: ExtractFault) -> Result<(), Memory>
    ensures { OnOk result (text.new.items ≡ text.old.items ++ text_line (extract_fault_words fault)) }
{
    match fault {
        ExtractFault::Array(fault) => write_array_fault(text, fault),
        ExtractFault::Form { fault, spot } => write_at(text, b"form", form_word(fault), spot),
        ExtractFault::ClockOut(output) => write_clock_out(text, output),
        ExtractFault::Clash(output) => write_clash(text, output),
        ExtractFault::Memory => write_word(text, b"memory"),
    }
}
