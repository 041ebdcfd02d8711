ghost use Rattle.std.specs.Prelude.{◌≡◌, ◌≤◌, [], IfOk};
ghost use Rattle.act1_logtext.specs.ReadSteps as steps;
ghost use Rattle.act1_logtext.specs.StepLines as lines;
ghost use Rattle.act1_logtext.specs.StepLines.{hint_said, most_at};
ghost use Rattle.act1_logtext.specs.ReadSteps.{begins_step, choices_in, hint_in, hints_in, step_on, step_word};
ghost use Rattle.act1_base.specs.Words.{words_of};

use crate::steps::{AT_LEAST, CHOICE, CLASH, COLON, STEP, STEP_FORM};
use act1_base::{Items, Memory};
use act1_channel::{Choice, Hint, Step};
use act1_table::{Given, Words, read_word};
use std::alloc::Global;

const FIRST_WORD: &[u8] = b"step";

// A hint has at least two bytes, and a space in front.
const BYTES_PER_HINT: usize = 3;

// The number at a place, or the most where it is greater.
fn most_at(most: u64, numbers: &[u64], at: usize) -> u64
    ensures value { result ≡ most_at most numbers.now at }
    ensures most { result ≤ most }
{
    match numbers.get(at) {
        Some(n) => { if *n <= most { *n } else { most } }
        None => 0,
    }
}

// The choice of these numbers.
fn choice_of(numbers: &[u64]) -> Choice
    ensures { result ≡ lines.choice_of numbers.now }
{
    Choice {
        connection: most_at(65_535, numbers, 0) as u16,
        track: most_at(255, numbers, 1) as u8,
    }
}

// The clash of these numbers.
fn clash_of(numbers: &[u64]) -> Hint
    ensures { result ≡ lines.clash_of numbers.now }
{
    Hint::Clash {
        first: most_at(65_535, numbers, 0) as u16,
        second: most_at(65_535, numbers, 1) as u16,
        track: most_at(255, numbers, 2) as u8,
    }
}

// The hint of a way with these numbers.
fn hint_of(way: usize, numbers: &[u64]) -> Option<Hint>
    ensures { result ≡ lines.hint_of way numbers.now }
{
    match way {
        AT_LEAST => Some(Hint::AtLeast(most_at(65_535, numbers, 0) as u16)),
        CLASH => Some(clash_of(numbers)),
        STEP => Some(Hint::Step(most_at(4_294_967_295, numbers, 0) as u32)),
        _ => None,
    }
}

// The hint that a word says, if it says one.
fn hint_said(word: &Given) -> Option<Hint>
    ensures { result ≡ hint_said word.now }
{
    match word {
        Given::Name(_) => None,
        Given::Way { way, numbers } => hint_of(*way, numbers.as_slice()),
    }
}

// Whether the word is `step`.
fn is_step(word: &[u8]) -> bool
    ensures { result ≡ steps.is_step word.now }
{
    word == FIRST_WORD
}

/// Whether the first word of the line is `step`.
pub fn is_step_line(line: &[u8]) -> bool
    ensures { result ≡ begins_step (words_of line.now) }
{
    let mut words = Words::new(line);
    match words.take_first() {
        Some(first) => is_step(first),
        None => false,
    }
}

// What a word behind the first one says.
#[tactic(auto, unfolding(crate::specs::ReadSteps::step_word))]
fn read_step_word(alloc: Global, word: &[u8]) -> Result<Option<Given>, Memory>
    ensures { IfOk result (λ given. given ≡ step_word word.now) }
{
    read_word(alloc, STEP_FORM.rest, word)
}

// The hint that a word says, if it says one.
fn read_hint(alloc: Global, word: &[u8]) -> Result<Option<Hint>, Memory>
    ensures { IfOk result (λ hint. hint ≡ hint_in word.now) }
{
    match read_step_word(alloc, word)? {
        Some(given) => Ok(hint_said(&given)),
        None => Ok(None),
    }
}

// The step of these choices and the hints that the words say, if each says one. A hint takes eight bytes, and room
// is made for as many as there are words, but for no more than there can be in so many bytes.
fn read_hints(
    alloc: Global,
    choices: Items<Choice>,
    words: &mut Words,
    most: usize,
) -> Result<Option<Step>, Memory>
    ensures { IfOk result (λ step. step ≡ hints_in choices [] words.old) }
{
    let mut hints = Vec::with_capacity(alloc, words.count().min(most))?;
    while let Some(word) = words.take_first() {
        match read_hint(alloc, word)? {
            Some(hint) => hints.push(hint)?,
            None => return Ok(None),
        }
    }
    Ok(Some(Step {
        choices,
        hints: Items::from_vec(hints),
    }))
}

// The step that the words behind the first say, if they say one, with this many hints at most.
fn read_choices(alloc: Global, words: &mut Words, most: usize) -> Result<Option<Step>, Memory>
    ensures { IfOk result (λ step. step ≡ choices_in [] words.old) }
{
    let mut choices = Items::new(alloc);
    while let Some(word) = words.take_first() {
        match &read_step_word(alloc, word)? {
            Some(Given::Way { way, numbers }) => match *way {
                CHOICE => choices.push(choice_of(numbers.as_slice()))?,
                COLON => return read_hints(alloc, choices, words, most),
                _ => return Ok(None),
            },
            _ => return Ok(None),
        }
    }
    Ok(None)
}

/// The step that a line says, which comes without its line feed: `step`, the choices, `:` and the hints. There is
/// none where another word comes first or a word is neither of these, where `:` lacks or comes twice, or where a
/// hint stands before it or a choice behind it. Each word is taken as it is read, so that a line of millions of
/// hints takes memory for the hints alone.
#[tactic(auto, using(crate::proofs::StepReads::step_first, crate::proofs::StepReads::step_not_first, crate::proofs::StepReads::step_no_word))]
pub fn read_step_line(alloc: Global, line: &[u8]) -> Result<Option<Step>, Memory>
    ensures { IfOk result (λ step. step ≡ step_on line.now) }
{
    let mut words = Words::new(line);
    let Some(first) = words.take_first() else {
        return Ok(None);
    };
    if !is_step(first) {
        return Ok(None);
    }
    read_choices(alloc, &mut words, line.len() / BYTES_PER_HINT + 1)
}
