ghost use Rattle.std.specs.Prelude.{◌≡◌};
ghost use Rattle.act1_base.specs.Capped.{at_most};
ghost use Rattle.act1_table.specs.Values as values;

use crate::forms::Given;

/// The numbers of the word at a place, from 0: none where there is no such word, and none of a name.
pub fn numbers_at(words: &[Given], at: usize) -> &[u64]
    ensures { result.now ≡ values.numbers_at words.now at }
{
    match words.get(at) {
        Some(Given::Way { numbers, .. }) => numbers.as_slice(),
        _ => &[],
    }
}

/// The first number of the word at a place, or 0 where it has none.
pub fn number_at(words: &[Given], at: usize) -> u64
    ensures { result ≡ values.number_at words.now at }
{
    match numbers_at(words, at) {
        [first, ..] => *first,
        [] => 0,
    }
}

/// Which of the ways of its field the word at a place is, or 0 where there is no such word.
pub fn way_at(words: &[Given], at: usize) -> usize
    ensures { result ≡ values.way_at words.now at }
{
    match words.get(at) {
        Some(Given::Way { way, .. }) => *way,
        _ => 0,
    }
}

/// The name at a place, or no bytes where none stands there.
pub fn name_at(words: &[Given], at: usize) -> &[u8]
    ensures { result.now ≡ values.name_at words.now at }
{
    match words.get(at) {
        Some(Given::Name(name)) => name.as_bytes(),
        _ => &[],
    }
}

/// The number, or the most where it is greater.
pub fn at_most(most: u8, n: u64) -> u8
    ensures { result ≡ at_most most n }
{
    if n <= u64::from(most) { n as u8 } else { most }
}
