ghost use Rattle.std.specs.Prelude.{ℕ, ◌≡◌, ◌≤◌, map, length, Some, None, IsTrue};
ghost use Rattle.std.specs.Option.{is_none};
ghost use Rattle.std.specs.List.{list_any, list_all};
ghost use Rattle.std.specs.Str.{bytes_eq};
ghost use Rattle.act1_base.specs.Names.{is_name_byte};
ghost use Rattle.act1_bliftext.specs.Forms.{form_of, is_dotted, init_value};
ghost use Rattle.act1_bliftext.specs.Faults.{is_fine_word, is_bad_word, is_byte_fault, is_long};

use crate::form::Form;

/// Whether a word is this text.
pub fn is(word: &[u8], text: &[u8]) -> bool
    ensures { result ≡ bytes_eq word.now text.now }
{
    word == text
}

// Whether a word has a leading dot.
fn is_dotted(word: &[u8]) -> bool
    ensures { result ≡ is_dotted word.now }
{
    match word {
        [b, ..] => *b == b'.',
        [] => false,
    }
}

/// The form of a line, by its first word.
#[tactic(auto, unfolding(crate::specs::Forms::form_of))]
pub fn form_of(word: &[u8]) -> Form
    ensures { result ≡ form_of word.now }
{
    if is(word, b".model") {
        Form::Model
    } else if is(word, b".inputs") {
        Form::Inputs
    } else if is(word, b".outputs") {
        Form::Outputs
    } else if is(word, b".clock") {
        Form::Clock
    } else if is(word, b".names") {
        Form::Names
    } else if is(word, b".latch") {
        Form::Latch
    } else if is(word, b".end") {
        Form::End
    } else if is_dotted(word) {
        Form::Unknown
    } else {
        Form::Row
    }
}

// Whether each byte may stand in a name.
fn are_name_bytes(bytes: &[u8]) -> bool
    ensures { result ≡ list_all is_name_byte bytes.now }
{
    bytes.iter().all(|b| *b >= 33 && *b <= 126 && *b != b'#')
}

// Whether all bytes of a word show, and the last is no backslash.
fn is_fine_word(word: &[u8]) -> bool
    ensures { result ≡ is_fine_word word.now }
{
    if word.is_empty() || word[word.len() - 1] == b'\\' {
        return false;
    }
    are_name_bytes(word)
}

// Whether one of the words has a byte that doesn't show or ends in a backslash.
fn has_bad(words: &[&[u8]]) -> bool
    ensures { result ≡ list_any is_bad_word (map (λ w. w.now) words.now) }
{
    for word in words {
        if !is_fine_word(word) {
            return true;
        }
    }
    false
}

/// Whether a word of a line has a byte that doesn't show or ends in a backslash.
pub fn is_byte_fault(first: &[u8], rest: &[&[u8]]) -> bool
    ensures { result ≡ is_byte_fault first.now (map (λ w. w.now) rest.now) }
{
    !is_fine_word(first) || has_bad(rest)
}

// Whether a name has more than 1,024 bytes.
fn is_long(name: &[u8]) -> bool
    ensures { result ≡ is_long name.now }
{
    name.len() > 1024
}

/// Whether one of the names has more than 1,024 bytes.
pub fn has_long(names: &[&[u8]]) -> bool
    ensures { result ≡ list_any is_long (map (λ w. w.now) names.now) }
{
    for name in names {
        if is_long(name) {
            return true;
        }
    }
    false
}

/// The init that a word gives.
pub fn init_value(word: &[u8]) -> Option<u8>
    ensures { result ≡ init_value word.now }
{
    match word {
        [b] => {
            if *b >= b'0' && *b <= b'3' {
                Some(*b - b'0')
            } else {
                None
            }
        }
        _ => None,
    }
}
