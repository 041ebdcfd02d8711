ghost use Rattle.std.specs.Prelude.{◌≡◌, ◌++◌, ◌∷◌, [], OnOk};
ghost use Rattle.std.specs.Fmt.{decimal};
ghost use Rattle.act1_base.specs.Words.{text_line};
ghost use Rattle.act1_sim.specs.FaultWords.{sim_fault_words};

use crate::fault::SimFault;
use act1_array::write_array_fault;
use act1_base::{Memory, add_number, add_word, write_word};
use act1_circuit::Spot;

// Two words and a number.
fn write_numbered(
    text: &mut Vec<u8>,
    first: &[u8],
    second: &[u8],
    number: u64,
) -> Result<(), Memory>
    ensures { OnOk result (text.new.items ≡ text.old.items ++ text_line (first.now ∷ second.now ∷ decimal number ∷ [])) }
{
    text.extend_from_slice(first)?;
    add_word(text, second)?;
    add_number(text, number)?;
    text.push(b'\n')?;
    Ok(())
}

// Adds a blank, a word and a spot.
fn add_spot(text: &mut Vec<u8>, word: &[u8], spot: Spot) -> Result<(), Memory>
    ensures { OnOk result (text.new.items ≡ text.old.items ++ 32 ∷ (word.now ++ 32 ∷ (decimal spot.row ++ 32 ∷ decimal spot.column))) }
{
    add_word(text, word)?;
    add_number(text, u64::from(spot.row))?;
    add_number(text, u64::from(spot.column))
}

// A cycle and a module, each by its word.
fn write_place(
    text: &mut Vec<u8>,
    first: &[u8],
    of_cycle: &[u8],
    cycle: u64,
    of_module: &[u8],
    spot: Spot,
) -> Result<(), Memory>
    ensures { OnOk result (text.new.items ≡ text.old.items ++ text_line (first.now ∷ of_cycle.now ∷ decimal cycle ∷ of_module.now ∷ decimal spot.row ∷ decimal spot.column ∷ [])) }
{
    text.extend_from_slice(first)?;
    add_word(text, of_cycle)?;
    add_number(text, cycle)?;
    add_spot(text, of_module, spot)?;
    text.push(b'\n')?;
    Ok(())
}

/// Adds the line of a refusal: that of the array, `vectors line LINE`,
/// `unsettled cycle CYCLE module ROW COLUMN` or `memory`. The one error is `Memory`, after which a
/// part of the line may have been added.
pub fn write_sim_fault(text: &mut Vec<u8>, fault: SimFault) -> Result<(), Memory>
    ensures { OnOk result (text.new.items ≡ text.old.items ++ text_line (sim_fault_words fault)) }
{
    match fault {
        SimFault::Array(fault) => write_array_fault(text, fault),
        SimFault::Vector(line) => write_numbered(text, b"vectors", b"line", u64::from(line)),
        SimFault::Unsettled { cycle, spot } => {
            write_place(text, b"unsettled", b"cycle", cycle, b"module", spot)
        }
        SimFault::Memory => write_word(text, b"memory"),
    }
}
