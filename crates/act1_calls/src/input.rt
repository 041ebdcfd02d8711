ghost use Rattle.std.specs.Prelude.{◌≡◌, ◌≤◌, length, IfSome};

use act1_base::{HashSeed, read_number};
use act1_blif::Blif;
use act1_blifread::read_blif;
use act1_channel::Problem;
use act1_job::read_job;
use std::alloc::Global;
use std::fmt::Write;
use std::fs;
use std::io::Read;
use std::rt::Files;

// A file has at most so many bytes.
const MOST_BYTES: u64 = 1 << 24;

// No number of a row is greater.
const MOST: u64 = 1_000_000_000;

/// The first bytes of a file, at most so many, if it can be read.
pub fn bytes_up_to<R: Files>(rt: &R, alloc: Global, name: &str, most: u64) -> Option<Vec<u8>> {
    let file = fs::open(rt, name).ok()?;
    let mut bytes = Vec::new(alloc);
    file.take(most).read_to_end(&mut bytes).ok()?;
    Some(bytes)
}

/// The bytes of a file, if it can be read.
pub fn bytes_of<R: Files>(rt: &R, alloc: Global, name: &str) -> Option<Vec<u8>> {
    bytes_up_to(rt, alloc, name, MOST_BYTES)
}

/// The text that the words are, parted by one blank each. A word `/` ends a line.
pub fn text_of(alloc: Global, words: &[&str]) -> Option<Vec<u8>> {
    let mut text = Vec::new(alloc);
    let mut begins_line = true;
    for word in words {
        if *word == "/" {
            text.push(b'\n').ok()?;
            begins_line = true;
        } else {
            add_word(&mut text, begins_line, word)?;
            begins_line = false;
        }
    }
    Some(text)
}

// Adds a word, with a blank in front but at the beginning of a line.
fn add_word(text: &mut Vec<u8>, begins_line: bool, word: &str) -> Option<()> {
    if !begins_line {
        text.push(b' ').ok()?;
    }
    text.extend_from_slice(word.as_bytes()).ok()
}

/// The channel problem of a job's file.
pub fn problem_of<R: Files>(rt: &R, alloc: Global, name: &str) -> Option<Problem> {
    let bytes = bytes_of(rt, alloc, name)?;
    if bytes.len() > 4_000_000_000 {
        return None;
    }
    let job = read_job(alloc, &bytes).ok()?;
    Some(job.problem)
}

/// The netlist of a BLIF file.
pub fn netlist_of<R: Files>(rt: &R, alloc: Global, name: &str) -> Option<Blif> {
    let bytes = bytes_of(rt, alloc, name)?;
    if bytes.len() > 4_000_000_000 {
        return None;
    }
    read_blif(alloc, HashSeed::new([0; 16]), &bytes).ok()
}

/// A number that a word spells.
pub fn number(word: &str) -> Option<u64> {
    read_number(word.as_bytes(), MOST).ok()
}

/// The number of a variable that a word spells.
pub fn variable(word: &str) -> Option<u8> {
    u8::try_from(number(word)?).ok()
}

/// The row `number WORD N`.
pub fn number_row(words: &[&str], text: &mut String) -> Option<()> {
    let [word, most] = words else {
        return None;
    };
    let most = read_number(most.as_bytes(), u64::MAX).ok()?;
    match read_number(word.as_bytes(), most) {
        Ok(number) => writeln!(text, "{number}").ok(),
        Err(_) => text.push_str("none\n").ok(),
    }
}

/// Adds a bit as a character.
pub fn add_bit(text: &mut String, bit: bool) -> Option<()> {
    text.push(if bit { '1' } else { '0' }).ok()
}

/// How many input vectors there are of so many inputs, which are at most six.
pub fn vectors_of(width: u8) -> u64
    ensures { result ≤ 64 }
{
    let count = 1u64 << (width % 8);
    if count > 64 { 64 } else { count }
}

/// The values of so many inputs that a number gives: input j is its bit j.
pub fn inputs_of(alloc: Global, number: u64, width: u8) -> Option<Vec<bool>>
    requires { width ≤ 6 }
    ensures { IfSome result (λ inputs. length inputs.items ≡ width) }
{
    let mut inputs = Vec::new(alloc);
    for place in 0..width {
        inputs.push((number >> place) & 1 == 1).ok()?;
    }
    Some(inputs)
}
