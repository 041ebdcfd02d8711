ghost use Rattle.std.specs.Prelude.{◌≡◌, ◌≤◌, length, IfOk};
ghost use Rattle.std.specs.Iterator.{YieldsFirstBy, item_count};
ghost use Rattle.std.specs.List.{list_all};
ghost use Rattle.std.specs.Str.Lines.{lines, strip_carriage_return};
ghost use Rattle.act1_sim.specs.SimulationSteps.{FindsNoVector};
ghost use Rattle.act1_sim.specs.Vectors.{is_digit, is_vector, bits_of};

use act1_base::line_feed;
use std::alloc::{AllocError, Global};
use std::marker::Model;

// The line without its last byte, if that is a carriage return.
fn without_return(line: &[u8]) -> &[u8]
    ensures { result.now ≡ strip_carriage_return line.now }
{
    if !line.is_empty() && line[line.len() - 1] == b'\r' {
        &line[..line.len() - 1]
    } else {
        line
    }
}

/// The lines of a text of vectors, in order and without their ends: a carriage return before a line
/// feed belongs to the line's end, and what stands behind the last line feed is a line if there is
/// anything. It takes no memory.
#[derive(Drop)]
pub struct VectorLines<'a> {
    rest: &'a [u8],
}

impl<'a> Model for VectorLines<'a> {
    ghost use Rattle.std.specs.Prelude.{List, ℕ};
    ghost use Rattle.std.specs.Str.Lines.{lines};

    ghost Value = { List (List ℕ) };

    ghost view = { λ text. lines text.rest.now };
}

impl<'a> VectorLines<'a> {
    /// The lines of these bytes.
    pub fn new(bytes: &'a [u8]) -> VectorLines<'a>
        ensures { result ≡ lines bytes.entry.now }
    {
        VectorLines { rest: bytes }
    }
}

impl<'a> Iterator for VectorLines<'a> {
    type Item = &'a [u8];

    ghost next_gives = { YieldsFirstBy (λ line. line.now) (λ text. text) };

    ghost remaining = { item_count (λ text. text) };

    fn next(&mut self) -> Option<&'a [u8]> {
        if self.rest.is_empty() {
            return None;
        }
        match line_feed(self.rest) {
            Some(end) => {
                let line = without_return(&self.rest[..end]);
                self.rest = &self.rest[end + 1..];
                Some(line)
            }
            None => {
                let line = self.rest;
                self.rest = &[];
                Some(line)
            }
        }
    }
}

// Whether each character is `0` or `1`.
fn are_digits(line: &[u8]) -> bool
    ensures { result ≡ list_all is_digit line.now }
{
    line.iter().all(|b| *b == b'0' || *b == b'1')
}

// Whether a line has one character `0` or `1` for each input.
fn is_vector(line: &[u8], width: usize) -> bool
    ensures { result ≡ is_vector width line.now }
{
    line.len() == width && are_digits(line)
}

/// The number, from 1, of the first line that is no vector.
pub fn first_no_vector(bytes: &[u8], width: usize) -> Option<u32>
    requires { length bytes.now ≤ 4000000000 }
    ensures { FindsNoVector width bytes.now result }
{
    let mut number = 1;
    for line in VectorLines::new(bytes) {
        if !is_vector(line, width) {
            return Some(number);
        }
        number += 1;
    }
    None
}

/// The bits of a vector.
pub fn bits_of(alloc: Global, line: &[u8]) -> Result<Vec<bool>, AllocError>
    ensures { IfOk result (λ bits. bits.items ≡ bits_of line.now) }
{
    line.iter().map(|b| *b == b'1').collect(alloc)
}
