ghost use Rattle.std.specs.Prelude.{◌≡◌, All, Contains};
ghost use Rattle.act1_match.specs.Choice.{IsChoice};
ghost use Rattle.act1_match.specs.Finds.{Finds};
ghost use Rattle.act1_match.specs.SearchSteps.{IsDataPin, IsMultiplexer};

use crate::choice::PinChoice;
use crate::inputs::{agrees, ones_of};
use crate::pins::Multiplexer;

// One of the choices that has the table's value at each of these inputs.
fn data_pin(table: u64, inputs: u64, choices: &[PinChoice]) -> Option<PinChoice>
    requires { All (IsChoice 6) choices.now }
    ensures { Finds result (IsDataPin table inputs choices.now) }
{
    for choice in choices {
        if agrees(table, inputs, *choice) {
            return Some(*choice);
        }
    }
    None
}

// A multiplexer of this select that has the table's value at each of these inputs. The data pins are
// chosen apart, since each goes through at inputs of its own.
fn with_select(
    table: u64,
    inputs: u64,
    choices: &[PinChoice],
    select: PinChoice,
) -> Option<Multiplexer>
    requires choices { All (IsChoice 6) choices.now }
    requires listed { Contains choices.now select }
    ensures { Finds result (λ m. (m.select ≡ select) × IsMultiplexer table inputs choices.now m) }
{
    let ones = ones_of(select);
    let low = data_pin(table, inputs & !ones, choices)?;
    let high = data_pin(table, inputs & ones, choices)?;
    Some(Multiplexer { low, high, select })
}

// A multiplexer that has the table's value at each of these inputs.
pub fn multiplexer(table: u64, inputs: u64, choices: &[PinChoice]) -> Option<Multiplexer>
    requires { All (IsChoice 6) choices.now }
    ensures { Finds result (IsMultiplexer table inputs choices.now) }
{
    for select in choices {
        if let Some(found) = with_select(table, inputs, choices, *select) {
            return Some(found);
        }
    }
    None
}
