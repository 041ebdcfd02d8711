ghost use Rattle.std.specs.Prelude.{◌≡◌, All, Contains};
ghost use Rattle.act1_match.specs.Choice.{IsChoice};
ghost use Rattle.act1_match.specs.Finds.{Finds};
ghost use Rattle.act1_match.specs.SearchSteps.{ArePins};

use crate::choice::PinChoice;
use crate::inputs::ones_of;
use crate::multiplexer::multiplexer;
use crate::pins::Pins;

// Pins with these two selects, by which the module has the table's value at each of these inputs. The
// sides are chosen apart, since each goes through at inputs of its own.
fn with_both(
    table: u64,
    inputs: u64,
    choices: &[PinChoice],
    s0: PinChoice,
    s1: PinChoice,
) -> Option<Pins>
    requires choices { All (IsChoice 6) choices.now }
    requires first { Contains choices.now s0 }
    requires second { Contains choices.now s1 }
    ensures { Finds result (λ p. (p.s0 ≡ s0) × (p.s1 ≡ s1) × ArePins table inputs choices.now p) }
{
    let ones = ones_of(s0) | ones_of(s1);
    let a = multiplexer(table, inputs & !ones, choices)?;
    let b = multiplexer(table, inputs & ones, choices)?;
    Some(Pins { a, b, s0, s1 })
}

// Pins with this first select, by which the module has the table's value at each of these inputs.
fn with_first(table: u64, inputs: u64, choices: &[PinChoice], s0: PinChoice) -> Option<Pins>
    requires choices { All (IsChoice 6) choices.now }
    requires first { Contains choices.now s0 }
    ensures { Finds result (λ p. (p.s0 ≡ s0) × ArePins table inputs choices.now p) }
{
    for s1 in choices {
        if let Some(found) = with_both(table, inputs, choices, s0, *s1) {
            return Some(found);
        }
    }
    None
}

// Pins by which the module has the table's value at each of these inputs.
pub fn pins_of(table: u64, inputs: u64, choices: &[PinChoice]) -> Option<Pins>
    requires { All (IsChoice 6) choices.now }
    ensures { Finds result (ArePins table inputs choices.now) }
{
    for s0 in choices {
        if let Some(found) = with_first(table, inputs, choices, *s0) {
            return Some(found);
        }
    }
    None
}
