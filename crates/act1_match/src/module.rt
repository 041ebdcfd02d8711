ghost use Rattle.std.specs.Prelude.{◌≤◌};
ghost use Rattle.act1_match.specs.Finds.{Finds};
ghost use Rattle.act1_match.specs.Matches.{Matches};

use crate::choice::PinChoice;
use crate::inputs::inputs_of;
use crate::selects::pins_of;
use act1_logic::Table;

// What a pin may be connected to: a constant, or one of six variables.
const CHOICES: [PinChoice; 8] = [
    PinChoice::Zero,
    PinChoice::One,
    PinChoice::Var(0),
    PinChoice::Var(1),
    PinChoice::Var(2),
    PinChoice::Var(3),
    PinChoice::Var(4),
    PinChoice::Var(5),
];

/// Pins A0, A1, SA, B0, B1, SB, S0 and S1 by which one logic module of the ACT 1 data book is the
/// function of the table, which has `vars` variables: each pin is a constant or one of the variables.
/// `None` exactly where no choice of the eight pins makes it so. Bits of the table from 2^`vars` on
/// aren't looked at. It takes no memory.
///
/// Which of the pins it gives is free. Once the selects are chosen, the sides and the data pins of
/// each side are chosen apart, so at most 64 pairs of selects are tried, with 8 selects a side and 8
/// choices a data pin.
pub fn match_module(table: Table, vars: u8) -> Option<[PinChoice; 8]>
    requires { vars ≤ 6 }
    ensures { Finds result (Matches table vars) }
{
    let choices = &CHOICES[..usize::from(vars) + 2];
    let pins = pins_of(table.0, inputs_of(vars), choices)?;
    Some(pins.in_order())
}
