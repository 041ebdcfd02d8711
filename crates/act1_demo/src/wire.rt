ghost use Rattle.std.specs.Prelude.{◌≡◌, ◌≤◌, ◌<◌, ◌++◌, ◌∷◌, OnOk};
ghost use Rattle.std.specs.Fmt.{decimal};
ghost use Rattle.act1_demo.specs.Text.{carry_name, parity_after, parity_before};
ghost use Rattle.act1_demo.specs.TextSteps.{wire_name};

use act1_base::{Memory, add_word, write_number};

/// A signal of the counter, mostly by its bit.
#[derive(Clone, Copy, Debug, Drop)]
pub enum Wire {
    /// The input.
    Enable,
    /// What a bit is.
    State(u8),
    /// What a bit will be.
    Data(u8),
    /// Whether a bit changes.
    Carry(u8),
    /// The parity of the bits up to one.
    Parity(u8),
    /// The parity of all bits.
    Whole,
}

/// Whether a bit changes: the first one where the counter is enabled.
pub fn carry(bit: u8) -> Wire
    ensures { wire_name result ≡ carry_name bit }
{
    if bit == 0 {
        Wire::Enable
    } else {
        Wire::Carry(bit)
    }
}

/// The parity of the bits before one.
pub fn parity_before(bit: u8) -> Wire
    requires { 1 ≤ bit }
    ensures { wire_name result ≡ parity_before bit }
{
    if bit == 1 {
        Wire::State(0)
    } else {
        Wire::Parity(bit - 1)
    }
}

/// The parity of the bits up to one, of so many.
pub fn parity_after(bits: u8, bit: u8) -> Wire
    requires { bit < bits }
    ensures { wire_name result ≡ parity_after bits bit }
{
    if bit + 1 == bits {
        Wire::Whole
    } else {
        Wire::Parity(bit)
    }
}

// Adds a blank, a letter and a number.
fn add_numbered(text: &mut Vec<u8>, letter: u8, number: u8) -> Result<(), Memory>
    ensures { OnOk result (text.new.items ≡ text.old.items ++ 32 ∷ letter ∷ decimal number) }
{
    text.push(b' ')?;
    text.push(letter)?;
    write_number(text, u64::from(number))
}

/// Adds a blank and the name of a signal.
pub fn add_wire(text: &mut Vec<u8>, wire: Wire) -> Result<(), Memory>
    ensures { OnOk result (text.new.items ≡ text.old.items ++ 32 ∷ wire_name wire) }
{
    match wire {
        Wire::Enable => add_word(text, b"en"),
        Wire::State(bit) => add_numbered(text, b'q', bit),
        Wire::Data(bit) => add_numbered(text, b'd', bit),
        Wire::Carry(bit) => add_numbered(text, b'c', bit),
        Wire::Parity(bit) => add_numbered(text, b'p', bit),
        Wire::Whole => add_word(text, b"par"),
    }
}
