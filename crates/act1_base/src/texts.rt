ghost use Rattle.std.specs.Prelude.{◌≡◌, ◌≤◌, length, IfOk};
ghost use Rattle.act1_base.specs.FirstFault.{IsFormatOf, IsReadAs};
ghost use Rattle.act1_base.specs.Texts.{Gives, numbered, reading, at_end};
ghost use Rattle.act1_base.specs.declared.texts.Stop.TheVariants.{Memory};

use crate::lines::line_feed;
use crate::memory::Memory;
use std::alloc::{AllocError, AllocFailed};

/// Why something stopped: by a fault in what it read, or since no memory was left.
#[derive(Clone, Copy, Debug, PartialEq, Eq)]
pub enum Stop<F> {
    /// What was read has this fault.
    Fault(F),
    /// The call found no memory.
    Memory,
}

impl<F> From<Memory> for Stop<F> {
    ghost from_gives = { λ _ e. e ≡ Memory };

    fn from(_: Memory) -> Self {
        Stop::Memory
    }
}

impl<F> From<AllocError> for Stop<F> {
    ghost from_gives = { λ _ e. e ≡ Memory };

    fn from(_: AllocError) -> Self {
        Stop::Memory
    }
}

/// The first faulty line of a text, and what is wrong with it.
#[derive(Clone, Copy, Debug, PartialEq, Eq)]
pub struct TextFault<K> {
    /// The number of the line, from 1. Where the text is cut it is the line after the last.
    pub line: u32,
    /// What is wrong with it.
    pub kind: K,
}

/// A format of texts that are read line by line.
///
/// A format says where a reading starts, what each line does, what is wrong with a line that lacks
/// its line feed, and whether the text may end after the lines so far. `read_text` then reads a text
/// of the format, and answers the state after the last line, or the first faulty line. What the
/// lines do is a total function of the state and the line.
///
/// A format owes two proofs (`IsFormatOf`): that the bytes which are read to their end are its texts,
/// and that lines which are taken can be completed to a text. No format says what its first faulty line
/// is: it is the first that lacks its line feed, or with which the lines up to it begin no text, or the
/// line after the last, where the text is cut.
pub trait Format {
    ghost use Rattle.std.specs.Prelude.{◌≡◌, ℕ, List, IfOk};
    ghost use Rattle.act1_base.specs.Texts.{EndsBy, Gives, LineRules};

    /// What is kept of the lines so far.
    type State: Drop;

    /// What may be wrong with a line.
    type Kind;

    /// What the lines do.
    ghost rules: { Self → LineRules Self.State Self.Kind };

    /// The texts of the format, in words that name no line and no state.
    ghost is_text: { Self → List ℕ → Type 0 };

    /// The state before the first line.
    fn start(&self) -> Result<Self::State, Memory>
        ensures { IfOk result (λ state. state ≡ (rules self.now).start) };

    /// The state after one line more, which is given without its line feed.
    fn after(&self, state: Self::State, line: &[u8]) -> Result<Self::State, Stop<Self::Kind>>
        ensures { Gives result ((rules self.now).after state line.now) };

    /// What is wrong with a last line that lacks its line feed.
    fn unended(&self, state: &Self::State) -> Self::Kind
        ensures { result ≡ (rules self.now).unended state.now };

    /// What is wrong with the end of the text, if it may not end in this state.
    fn end(&self, state: &Self::State) -> Option<Self::Kind>
        ensures { EndsBy (rules self.now) state.now result };
}

// One line more, with its number at a fault.
fn after_line<F: Format>(
    format: &F,
    state: F::State,
    number: u32,
    line: &[u8],
) -> Result<F::State, Stop<TextFault<F::Kind>>>
    ensures { Gives result (numbered number ((F.rules format.now).after state line.now)) }
{
    match format.after(state, line) {
        Ok(next) => Ok(next),
        Err(Stop::Fault(kind)) => Err(Stop::Fault(TextFault { line: number, kind })),
        Err(Stop::Memory) => Err(Stop::Memory),
    }
}

// What stands behind the last line feed.
fn at_end<F: Format>(
    format: &F,
    state: F::State,
    number: u32,
    rest: &[u8],
) -> Result<F::State, Stop<TextFault<F::Kind>>>
    ensures { Gives result (numbered number (at_end (F.rules format.now) state rest.now)) }
{
    let wrong = if rest.is_empty() {
        format.end(&state)
    } else {
        Some(format.unended(&state))
    };
    match wrong {
        Some(kind) => Err(Stop::Fault(TextFault { line: number, kind })),
        None => Ok(state),
    }
}

// The lines of a text in their order, up to the first fault, and what stands behind them. No list of them is made.
fn read_pieces<F: Format>(format: &F, bytes: &[u8]) -> Result<F::State, Stop<TextFault<F::Kind>>>
    requires { length bytes.now ≤ 4000000000 }
    ensures { Gives result (reading (F.rules format.now) bytes.now) }
{
    let mut state = format.start()?;
    let mut number = 1;
    let mut rest = bytes;
    while let Some(end) = line_feed(rest) {
        state = after_line(format, state, number, &rest[..end])?;
        number += 1;
        rest = &rest[end + 1..];
    }
    at_end(format, state, number, rest)
}

/// The state that the lines of a text leave, or its first fault by the format's rules. Where these are
/// the rules of the format's texts (`IsFormatOf`), the fault's line is the first that lacks its line
/// feed, or with which the lines up to it begin no text of the format, or the line after the last
/// where the text is cut. It takes no memory of its own.
pub fn read_text<F: Format>(format: &F, bytes: &[u8]) -> Result<F::State, Stop<TextFault<F::Kind>>>
    requires { length bytes.now ≤ 4000000000 }
    ensures reads { Gives result (reading (F.rules format.now) bytes.now) }
    // Where the rules are those of the texts, in the words of the texts.
    ensures texts { IsFormatOf (F.rules format.now) (F.is_text format.now) → IsReadAs (F.is_text format.now) bytes.now result }
{
    read_pieces(format, bytes)
}
