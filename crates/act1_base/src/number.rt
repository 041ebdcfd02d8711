ghost use Rattle.std.specs.Prelude.{◌≡◌, ◌<◌, ◌≤◌, ◌^◌, ◌+◌, ◌-◌, ◌*◌, ◌++◌, OnOk, OnErr};
ghost use Rattle.std.specs.Option.{SomeIff};
ghost use Rattle.std.specs.Fmt.{decimal};
ghost use Rattle.act1_base.specs.Number.{SpellsUpTo, FitsDigit};

use crate::memory::Memory;
use thiserror::Error;

/// The bytes spell no number.
#[derive(Clone, Copy, Debug, Drop, PartialEq, Eq, Error)]
pub enum NumberFault {
    /// They aren't the decimal spelling of a number in the range that was asked for.
    #[error("no number")]
    Number,
}

// The number with one digit more, where the byte is a digit and the number stays in the range.
fn with_digit(value: u64, byte: u8, most: u64) -> Option<u64>
    ensures { SomeIff result (FitsDigit value byte most) (value * 10 + (byte - 48)) }
{
    if byte < b'0' || byte > b'9' {
        return None;
    }
    let next = u128::from(value) * 10 + u128::from(byte - b'0');
    if next > u128::from(most) {
        return None;
    }
    Some(next as u64)
}

/// The number that the bytes spell: decimal digits, without a sign, and without a leading zero
/// but in `0` itself. `Number` comes exactly where they spell no number up to `most`.
pub fn read_number(bytes: &[u8], most: u64) -> Result<u64, NumberFault>
    ensures { SpellsUpTo most bytes.now result }
{
    if bytes.is_empty() {
        return Err(NumberFault::Number);
    }
    let mut value = 0;
    for (i, byte) in bytes.iter().enumerate() {
        if i > 0 && value == 0 {
            return Err(NumberFault::Number);
        }
        match with_digit(value, *byte, most) {
            Some(next) => value = next,
            None => return Err(NumberFault::Number),
        }
    }
    Ok(value)
}

/// Adds the one spelling of a number. After `Memory` the bytes are unchanged.
pub fn write_number(out: &mut Vec<u8>, n: u64) -> Result<(), Memory>
    ensures ok { OnOk result (out.new.items ≡ out.old.items ++ decimal n) }
    ensures err { OnErr result (out.new.items ≡ out.old.items) }
{
    let text = n.to_string(*out.allocator())?;
    out.extend_from_slice(text.as_bytes())?;
    Ok(())
}
