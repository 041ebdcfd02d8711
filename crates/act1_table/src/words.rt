ghost use Rattle.std.specs.Prelude.{◌≡◌, ◌≤◌, ◌==◌, count_by, length};
ghost use Rattle.std.specs.List.{position};
ghost use Rattle.act1_base.specs.Words.{words_of};
ghost use Rattle.act1_table.specs.WordsLeft.{TakesFirst};

use std::marker::Model;

/// The words of a line that are left to read, in their order, as one space parts them: the pieces between spaces.
/// No list of them is made, so a line of any length takes no memory by its words alone.
#[derive(Drop)]
pub struct Words<'a> {
    // What stands behind the words that were read and their spaces.
    rest: &'a [u8],
    // Whether the last word was read. No bytes are one word more, which is empty.
    ended: bool,
}

impl<'a> Model for Words<'a> {
    ghost use Rattle.std.specs.Prelude.{List, ℕ};
    ghost use Rattle.act1_table.specs.WordsLeft.{words_left};

    ghost Value = { List (List ℕ) };

    ghost view = { λ words. words_left words.ended words.rest.now };
}

// The place of the first space.
fn first_space(bytes: &[u8]) -> Option<usize>
    ensures { result ≡ position (λ b. b == 32) bytes.now }
{
    bytes.iter().position(|b| *b == b' ')
}

// How many spaces there are.
fn count_spaces(bytes: &[u8]) -> usize
    ensures count { result ≡ count_by (λ b. b == 32) bytes.now }
    ensures few { result ≤ length bytes.now }
{
    bytes.iter().filter(|b| **b == b' ').count()
}

impl<'a> Words<'a> {
    /// The words of the line.
    pub fn new(line: &'a [u8]) -> Words<'a>
        ensures { result ≡ words_of line.entry.now }
    {
        Words {
            rest: line,
            ended: false,
        }
    }

    /// Takes the first of the words that are left, if there is one. Where none is left, none is afterwards.
    #[tactic(auto, using(crate::proofs::WordCuts::cut_word, crate::proofs::WordCuts::last_word))]
    pub fn take_first(&mut self) -> Option<&'a [u8]>
        ensures { TakesFirst self.old result self.new }
    {
        if self.ended {
            return None;
        }
        match first_space(self.rest) {
            Some(end) => {
                let word = &self.rest[..end];
                self.rest = &self.rest[end + 1..];
                Some(word)
            }
            None => {
                self.ended = true;
                Some(self.rest)
            }
        }
    }

    /// How many words are left. It goes over the bytes and takes no memory.
    #[tactic(auto, using(crate::proofs::WordCuts::words_by_spaces))]
    pub fn count(&self) -> usize
        ensures { result ≡ length self.now }
    {
        if self.ended {
            0
        } else {
            count_spaces(self.rest) + 1
        }
    }
}
