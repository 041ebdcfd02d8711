ghost use Rattle.std.specs.Prelude.{◌≡◌, ℕ, ◌<◌, ◌≤◌, ◌^◌, ◌↔◌, IsTrue, nat_lt};
ghost use Rattle.act1_match.specs.Choice.{has_bit, value_at, IsChoice};
ghost use Rattle.act1_match.specs.SearchSteps.{Agrees};

use crate::choice::PinChoice;

// The inputs at which each of six variables is 1, as bits of a number.
const VARIABLES: [u64; 6] = [
    0xAAAA_AAAA_AAAA_AAAA,
    0xCCCC_CCCC_CCCC_CCCC,
    0xF0F0_F0F0_F0F0_F0F0,
    0xFF00_FF00_FF00_FF00,
    0xFFFF_0000_FFFF_0000,
    0xFFFF_FFFF_0000_0000,
];

// The inputs of so many variables, as bits of a number.
pub fn inputs_of(vars: u8) -> u64
    requires { vars ≤ 6 }
    ensures { (i : ℕ) → i < 64 → has_bit result i ≡ nat_lt i (2 ^ vars) }
{
    u64::MAX >> (64 - (1u32 << vars))
}

/// The inputs of six variables at which a pin of this choice is 1, as bits of a number: variable j is bit j
/// of an input.
pub fn ones_of(choice: PinChoice) -> u64
    requires { IsChoice 6 choice }
    ensures { (i : ℕ) → i < 64 → has_bit result i ≡ value_at i choice }
{
    match choice {
        PinChoice::Zero => 0,
        PinChoice::One => u64::MAX,
        PinChoice::Var(variable) => VARIABLES[usize::from(variable)],
    }
}

// Whether a pin with this choice has the table's value at each of these inputs.
pub fn agrees(table: u64, inputs: u64, choice: PinChoice) -> bool
    requires { IsChoice 6 choice }
    ensures { IsTrue result ↔ Agrees table inputs (λ i. value_at i choice) }
{
    ones_of(choice) & inputs == table & inputs
}
