ghost use Rattle.std.specs.Prelude.{◌≡◌, ◌++◌, ◌∷◌, [], OnOk};
ghost use Rattle.std.specs.Fmt.{decimal};
ghost use Rattle.std.specs.List.{flat_map};
ghost use Rattle.act1_base.specs.Words.{text_line};

use crate::memory::Memory;
use crate::name::Name;
use crate::number::write_number;

/// Adds a blank and a word. The blank goes with the word behind it, so that nothing has to know which
/// word is the last of its line.
pub fn add_word(text: &mut Vec<u8>, word: &[u8]) -> Result<(), Memory>
    ensures { OnOk result (text.new.items ≡ text.old.items ++ 32 ∷ word.now) }
{
    text.push(b' ')?;
    text.extend_from_slice(word)?;
    Ok(())
}

/// Adds a blank and the one spelling of a number.
pub fn add_number(text: &mut Vec<u8>, n: u64) -> Result<(), Memory>
    ensures { OnOk result (text.new.items ≡ text.old.items ++ 32 ∷ decimal n) }
{
    text.push(b' ')?;
    write_number(text, n)
}

/// Adds the names, each after a blank.
#[tactic(auto, using(crate::proofs::TextGrows::names_more))]
pub fn add_names(text: &mut Vec<u8>, names: &[Name]) -> Result<(), Memory>
    ensures { OnOk result (text.new.items ≡ text.old.items ++ flat_map (λ word. 32 ∷ word) names.now) }
{
    for name in names {
        add_word(text, name.as_bytes())?;
    }
    Ok(())
}

/// Adds the line of one word, of which no other stands on it.
pub fn write_word(text: &mut Vec<u8>, word: &[u8]) -> Result<(), Memory>
    ensures { OnOk result (text.new.items ≡ text.old.items ++ text_line (word.now ∷ [])) }
{
    text.extend_from_slice(word)?;
    text.push(b'\n')?;
    Ok(())
}

/// Adds the line of a word and a name.
pub fn write_named(text: &mut Vec<u8>, word: &[u8], name: &[u8]) -> Result<(), Memory>
    ensures { OnOk result (text.new.items ≡ text.old.items ++ text_line (word.now ∷ name.now ∷ [])) }
{
    text.extend_from_slice(word)?;
    add_word(text, name)?;
    text.push(b'\n')?;
    Ok(())
}
