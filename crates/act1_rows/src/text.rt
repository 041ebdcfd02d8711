ghost use Rattle.std.specs.Prelude.{◌<◌, IfOk};

use crate::fault::Fault;

// The value of a hexadecimal digit.
fn digit(byte: u8) -> Result<u8, Fault>
    ensures { IfOk result (λ value. value < 16) }
{
    match byte {
        b'0'..=b'9' => Ok(byte - b'0'),
        b'A'..=b'F' => Ok(byte - b'A' + 10),
        _ => Err(Fault::Escape),
    }
}

/// Adds the bytes that a word stands for: `%` and two digits are a byte, `%` alone is no byte, and any
/// other byte is itself. `Escape` where a `%` has no two digits behind it.
pub fn read_word(word: &str, bytes: &mut Vec<u8>) -> Result<(), Fault> {
    if word == "%" {
        return Ok(());
    }
    for (place, piece) in word.split('%').enumerate() {
        match piece.as_bytes() {
            plain if place == 0 => bytes.extend_from_slice(plain)?,
            [high, low, plain @ ..] => {
                bytes.push(digit(*high)? * 16 + digit(*low)?)?;
                bytes.extend_from_slice(plain)?;
            }
            _ => return Err(Fault::Escape),
        }
    }
    Ok(())
}

/// Adds the bytes that a text stands for: the word `/` ends a line, and so does the end of the text unless
/// its last word is `%end`. `Escape` where a word has a `%` that stands for no byte.
pub fn read_text(text: &str, bytes: &mut Vec<u8>) -> Result<(), Fault> {
    let (lines, is_ended) = match text.strip_suffix(" %end") {
        Some(lines) => (lines, false),
        None => (text, true),
    };
    let mut is_inside = false;
    for word in lines.split(' ') {
        if word == "/" {
            bytes.push(b'\n')?;
            is_inside = false;
            continue;
        }
        if is_inside {
            bytes.push(b' ')?;
        }
        read_word(word, bytes)?;
        is_inside = true;
    }
    if is_inside && is_ended && !lines.is_empty() {
        bytes.push(b'\n')?;
    }
    Ok(())
}
