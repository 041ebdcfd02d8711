ghost use Rattle.std.specs.Prelude.{◌≡◌, ◌++◌, OnOk};
ghost use Rattle.std.specs.Fmt.{decimal};
ghost use Rattle.act1_circuit.specs.SourceWords.{source_word};

use crate::circuit::Source;
use act1_base::{Memory, write_number};

// Adds a letter and a number.
fn add_numbered(text: &mut Vec<u8>, letter: &[u8], number: u16) -> Result<(), Memory>
    ensures { OnOk result (text.new.items ≡ text.old.items ++ (letter.now ++ decimal number)) }
{
    text.extend_from_slice(letter)?;
    write_number(text, u64::from(number))
}

/// Adds the word of a source: `0`, `1`, `c`, or `i` or `m` with the number of an input or a module.
/// The one error is `Memory`, after which a part of the word may have been added.
pub fn add_source(text: &mut Vec<u8>, source: Source) -> Result<(), Memory>
    ensures { OnOk result (text.new.items ≡ text.old.items ++ source_word source) }
{
    match source {
        Source::Zero => text.extend_from_slice(b"0")?,
        Source::One => text.extend_from_slice(b"1")?,
        Source::Clock => text.extend_from_slice(b"c")?,
        Source::Input(input) => add_numbered(text, b"i", input)?,
        Source::Module(module) => add_numbered(text, b"m", module)?,
    }
    Ok(())
}
