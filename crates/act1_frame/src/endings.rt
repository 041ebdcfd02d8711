ghost use Rattle.std.specs.Prelude.{◌≡◌, [], ◌∷◌, IfOk};
ghost use Rattle.act1_base.specs.Words.{text_line};
ghost use Rattle.act1_frame.specs.Endings.{printed, refusal, with_text};

use crate::ending::Ending;
use crate::word::Word;
use act1_base::{Items, Memory, write_named};
use std::alloc::Global;

/// The ending with this status that prints this text and writes no file. It takes no memory.
pub fn with_text(status: u8, text: Vec<u8>) -> Ending
    ensures { result ≡ with_text status text.items }
{
    Ending {
        status,
        text: Items::from_vec(text),
        file: None,
    }
}

/// The ending with this status that prints the line of some words and a name, and writes no file. The
/// one error is `Memory`.
pub fn named_refusal(alloc: Global, status: u8, words: &[u8], name: &Word) -> Result<Ending, Memory>
    ensures { IfOk result (λ ending. ending ≡ refusal status (words.now ∷ name.now ∷ [])) }
{
    let mut text = Vec::new(alloc);
    write_named(&mut text, words, name.as_str().as_bytes())?;
    Ok(with_text(status, text))
}
