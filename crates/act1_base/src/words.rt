ghost use Rattle.std.specs.Prelude.{◌≡◌, ◌==◌, map, IfOk, IsTrue};
ghost use Rattle.std.specs.List.{slice_split, list_all};
ghost use Rattle.act1_base.specs.Names.{is_name, is_name_byte};
ghost use Rattle.act1_base.specs.Capped.{is_number, is_digit, capped, capped_after};
ghost use Rattle.act1_base.specs.Words.{words_of};

use crate::memory::Memory;
use smallvec::SmallVec;
use std::alloc::Global;

/// The words of a line of the project's own texts, as one space parts them: the pieces between
/// spaces. The first eight take no memory.
pub fn words_of<'a>(alloc: Global, line: &'a [u8]) -> Result<SmallVec<&'a [u8], 8>, Memory>
    ensures { IfOk result (λ words. map (λ word. word.now) words.items ≡ words_of line.entry.now) }
{
    let mut words = SmallVec::new(alloc);
    for word in line.split(|b| *b == b' ') {
        words.push(word)?;
    }
    Ok(words)
}

// Whether each byte may stand in a name.
fn are_name_bytes(bytes: &[u8]) -> bool
    ensures { result ≡ list_all is_name_byte bytes.now }
{
    bytes.iter().all(|b| *b >= 33 && *b <= 126 && *b != b'#')
}

/// Whether the bytes may stand as a name: 1 to 1,024 bytes from 0x21 to 0x7E without `#`, of which
/// the last is no backslash.
pub fn is_name(bytes: &[u8]) -> bool
    ensures { result ≡ is_name bytes.now }
{
    if bytes.is_empty() || bytes.len() > 1024 || bytes[bytes.len() - 1] == b'\\' {
        return false;
    }
    are_name_bytes(bytes)
}

// Whether each byte is a digit.
fn are_digits(bytes: &[u8]) -> bool
    ensures { result ≡ list_all is_digit bytes.now }
{
    bytes.iter().all(|b| *b >= b'0' && *b <= b'9')
}

/// Whether the bytes spell a number of any length: decimal digits, without a sign, and without a
/// leading zero but in `0` itself.
pub fn is_number(bytes: &[u8]) -> bool
    ensures { result ≡ is_number bytes.now }
{
    if bytes.is_empty() || (bytes.len() > 1 && bytes[0] == b'0') {
        return false;
    }
    are_digits(bytes)
}

// The number with one digit more, or the most.
fn with_digit_capped(value: u32, byte: u8, most: u32) -> u32
    ensures { result ≡ capped_after value byte most }
{
    let next = u64::from(value) * 10 + u64::from(byte.saturating_sub(b'0'));
    if next <= u64::from(most) {
        next as u32
    } else {
        most
    }
}

/// The number that digits spell, or `most` where it is greater.
pub fn capped_number(bytes: &[u8], most: u32) -> u32
    requires { IsTrue (is_number bytes.now) }
    ensures { result ≡ capped most bytes.now }
{
    let mut value = 0;
    for byte in bytes {
        value = with_digit_capped(value, *byte, most);
    }
    value
}
