ghost use Rattle.std.specs.Prelude.{◌≡◌};
ghost use Rattle.std.specs.List.{list_all};
ghost use Rattle.act1_device.specs.Rules.{is_device_byte, is_device_name};
ghost use Rattle.act1_devread.specs.Range.{natural, is_number, is_letter, are_letters, pins_of};
ghost use Rattle.act1_devread.specs.Rules.{size_rules};
ghost use Rattle.act1_devread.specs.ReadingSteps.{fault, Asks, Follows, HasSizes};

use crate::fault::{DeviceFault, DeviceKind};
use crate::values::{Sizes, Values};

// The numbers and letters of a device, by the first one that is out of range.
#[tactic(auto, unfolding(crate::specs::Rules::size_rules, crate::specs::Rules::first_fault))]
pub fn sizes_of(values: &Values) -> Result<Sizes, DeviceFault>
    ensures { Follows (size_rules values.now) (HasSizes values.now) result }
{
    number(values.format, 1, 1, 1)?;
    check_name(values.name.as_bytes(), 2)?;
    let rows = number(values.rows, 1, 32, 3)?;
    let columns = number(values.columns, 2, 64, 4)?;
    let pins = pins(values.pins.as_bytes(), 5)?;
    let below = number(values.below, 0, 32, 6)?;
    let above = number(values.above, 0, 32, 7)?;
    Ok(Sizes {
        rows,
        columns,
        pins,
        below,
        above,
    })
}

// The fault of a value out of its range.
pub fn out_of_range(number: u8) -> DeviceFault
    ensures { result ≡ fault DeviceKind.Range number }
{
    DeviceFault::new(DeviceKind::Range, number)
}

// The number that an integer from `low` to `high` is.
#[tactic(auto, unfolding(crate::specs::Range::is_number))]
fn number(integer: i64, low: u8, high: u8, key: u8) -> Result<u8, DeviceFault>
    ensures { Asks (is_number low high integer)
        (natural integer)
        (fault DeviceKind.Range key) result }
{
    if i64::from(low) <= integer && integer <= i64::from(high) {
        Ok(integer as u8)
    } else {
        Err(out_of_range(key))
    }
}

// Whether a byte is an ASCII letter, an ASCII digit, `_` or `-`.
fn is_device_byte(byte: u8) -> bool
    ensures { result ≡ is_device_byte byte }
{
    byte.is_ascii_uppercase()
        || byte.is_ascii_lowercase()
        || byte.is_ascii_digit()
        || byte == b'_'
        || byte == b'-'
}

fn are_device_bytes(bytes: &[u8]) -> bool
    ensures { result ≡ list_all is_device_byte bytes.now }
{
    bytes.iter().all(|byte| is_device_byte(*byte))
}

// Asks that a name has 1 to 64 such bytes.
fn check_name(name: &[u8], key: u8) -> Result<(), DeviceFault>
    ensures { Asks (is_device_name name.now) tt (fault DeviceKind.Range key) result }
{
    if !name.is_empty() && name.len() <= 64 && are_device_bytes(name) {
        Ok(())
    } else {
        Err(out_of_range(key))
    }
}

fn is_letter(byte: u8) -> bool
    ensures { result ≡ is_letter byte }
{
    byte == b'L' || byte == b'U'
}

fn are_all_letters(text: &[u8]) -> bool
    ensures { result ≡ list_all is_letter text.now }
{
    text.iter().all(|byte| is_letter(*byte))
}

// Whether each pin leads up: eight letters, of which `U` is up and `L` is down.
fn pins(text: &[u8], key: u8) -> Result<[bool; 8], DeviceFault>
    ensures { Asks (are_letters text.now) (pins_of text.now) (fault DeviceKind.Range key) result }
{
    if !are_all_letters(text) {
        return Err(out_of_range(key));
    }
    match text {
        [a0, a1, sa, b0, b1, sb, s0, s1] => Ok([
            *a0 == b'U',
            *a1 == b'U',
            *sa == b'U',
            *b0 == b'U',
            *b1 == b'U',
            *sb == b'U',
            *s0 == b'U',
            *s1 == b'U',
        ]),
        _ => Err(out_of_range(key)),
    }
}
