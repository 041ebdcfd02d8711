ghost use Rattle.std.specs.Prelude.{◌≡◌, ◌++◌, [], map, OnOk};
ghost use Rattle.std.specs.Option.{option_map};
ghost use Rattle.act1_bliftext.specs.Lines.{is_blank, without_comment, before_backslash, words_of, word_before};

use act1_base::first_place;
use smallvec::SmallVec;
use std::alloc::AllocError;

// Whether the byte is a blank: space, tab or carriage return.
fn is_blank(b: u8) -> bool
    ensures { result ≡ is_blank b }
{
    b == b' ' || b == b'\t' || b == b'\r'
}

/// A line without its comment.
pub fn without_comment(line: &[u8]) -> &[u8]
    ensures { result.now ≡ without_comment line.now }
{
    match first_place(b'#', line) {
        Some(start) => &line[..start],
        None => line,
    }
}

/// What stands before a backslash behind which only blanks stand: a line that has one is joined to
/// the next line.
pub fn before_backslash(line: &[u8]) -> Option<&[u8]>
    ensures { option_map (λ front. front.now) result ≡ before_backslash line.now }
{
    let mut front = line;
    while let Some((last, before)) = front.split_last() {
        if *last == b'\\' {
            return Some(before);
        }
        if !is_blank(*last) {
            return None;
        }
        front = before;
    }
    None
}

// Adds a word, unless it has no byte.
fn add_word<'a>(words: &mut SmallVec<&'a [u8], 16>, word: &'a [u8]) -> Result<(), AllocError>
    ensures { OnOk result (map (λ w. w.now) words.new.items ≡ map (λ w. w.now) words.old.items ++ word_before word.entry.now []) }
{
    if !word.is_empty() {
        words.push(word)?;
    }
    Ok(())
}

/// Adds the words of a line: what stands between its blanks.
pub fn add_words<'a>(words: &mut SmallVec<&'a [u8], 16>, line: &'a [u8]) -> Result<(), AllocError>
    ensures { OnOk result (map (λ w. w.now) words.new.items ≡ map (λ w. w.now) words.old.items ++ words_of line.entry.now) }
{
    let mut start = 0;
    for (i, b) in line.iter().enumerate() {
        if is_blank(*b) {
            add_word(words, &line[start..i])?;
            start = i + 1;
        }
    }
    add_word(words, &line[start..])?;
    Ok(())
}
