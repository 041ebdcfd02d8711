ghost use Rattle.std.specs.Prelude.{ℕ, List, ◌≡◌, ◌≢◌, ◌+◌, ◌<◌, ◌≤◌, ◌^◌, ◌∷◌, [], length, sum_by, OnOk};
ghost use Rattle.act1_base.specs.Lines.{lines_of};
ghost use Rattle.act1_bliftext.specs.Lines.{Line, line_of, text_lines};
ghost use Rattle.act1_bliftext.specs.PlaceSteps.{AllGives, IsEnd, IsPlace, StepGives, TakesLines, bytes_of, kept_bytes};
ghost use Rattle.act1_bliftext.specs.ReadingSteps.{IsRead, left, open_marks};

use crate::fault::{BlifFault, BlifKind};
use crate::names::Names;
use crate::place::Place;
use crate::reading::Reading;
use crate::step::after_line;
use crate::words::{add_words, before_backslash, without_comment};
use act1_base::{HashSeed, Items, Lines, Stop};
use smallvec::SmallVec;
use std::alloc::Global;

// Reads a line with words.
fn take_line(
    alloc: Global,
    reading: &mut Reading,
    number: u32,
    first: &[u8],
    rest: &[&[u8]],
) -> Result<(), BlifFault>
    requires { open_marks reading.old.open_names + length first.now < 2 ^ 32 }
    ensures takes { (above : List Line) → IsRead above reading.old → TakesLines above (record { number = number; first = first.now; rest = bytes_of rest.now } ∷ []) (left reading.new result) }
    ensures marks { OnOk result (open_marks reading.new.open_names ≤ open_marks reading.old.open_names + length first.now) }
{
    match after_line(alloc, reading, number, first, rest) {
        Ok(()) => Ok(()),
        Err(Stop::Fault(kind)) => Err(BlifFault { line: number, kind }),
        Err(Stop::Memory) => Err(BlifFault {
            line: 0,
            kind: BlifKind::Memory,
        }),
    }
}

// Reads a joined line of these words, which is skipped where there are none.
fn take_words(
    alloc: Global,
    reading: &mut Reading,
    number: u32,
    words: &[&[u8]],
) -> Result<(), BlifFault>
    requires { open_marks reading.old.open_names + sum_by length (bytes_of words.now) < 2 ^ 32 }
    ensures takes { (above : List Line) → IsRead above reading.old → TakesLines above (line_of number (bytes_of words.now)) (left reading.new result) }
    ensures marks { OnOk result (open_marks reading.new.open_names ≤ open_marks reading.old.open_names + sum_by length (bytes_of words.now)) }
{
    match words {
        [first, rest @ ..] => take_line(alloc, reading, number, first, rest),
        [] => Ok(()),
    }
}

// Goes behind a joined line that has ended.
fn end_line(alloc: Global, place: &mut Place) -> Result<(), BlifFault>
    requires { kept_bytes place.old < 2 ^ 32 }
    ensures goes { (all : List Line) (raws : List (List ℕ)) → IsEnd all raws place.old → StepGives all raws (left place.new result) }
    ensures kept { OnOk result (kept_bytes place.new ≤ kept_bytes place.old) }
    ensures number { OnOk result (place.new.number ≡ place.old.number) }
{
    take_words(
        alloc,
        &mut place.reading,
        place.first,
        place.words.as_slice(),
    )?;
    place.words.clear();
    place.first = place.number;
    Ok(())
}

// Goes behind one more line.
fn next_line<'a>(alloc: Global, place: &mut Place<'a>, line: &'a [u8]) -> Result<(), BlifFault>
    requires few { kept_bytes place.old + length line.now < 2 ^ 32 }
    requires number { place.old.number + 1 < 2 ^ 32 }
    ensures goes { (all : List Line) (raws : List (List ℕ)) → IsPlace all (line.entry.now ∷ raws) place.old → StepGives all raws (left place.new result) }
    ensures kept { OnOk result (kept_bytes place.new ≤ kept_bytes place.old + length line.entry.now) }
    ensures number { OnOk result (place.new.number ≡ place.old.number + 1) }
{
    let code = without_comment(line);
    match before_backslash(code) {
        Some(front) => {
            add_words(&mut place.words, front)?;
            place.number += 1;
            Ok(())
        }
        None => {
            add_words(&mut place.words, code)?;
            place.number += 1;
            end_line(alloc, place)
        }
    }
}

// The place before the first line.
fn start<'a>(alloc: Global, seed: HashSeed) -> Place<'a>
    ensures first { result.first ≡ 1 }
    ensures number { result.number ≡ 1 }
    ensures words { result.words.items ≡ [] }
    ensures read { IsRead [] result.reading }
    ensures kept { kept_bytes result ≡ 0 }
{
    Place {
        reading: Reading {
            model: None,
            names: Names::new(alloc, seed),
            statements: Items::new(alloc),
            open_names: None,
            is_later: false,
            has_ended: false,
        },
        words: SmallVec::new(alloc),
        first: 1,
        number: 1,
    }
}

/// What the joined lines of a text say, or the first line that has a fault, and the first kind that
/// it has.
pub fn read_lines(alloc: Global, seed: HashSeed, bytes: &[u8]) -> Result<Reading, BlifFault>
    requires { length bytes.now ≤ 4000000000 }
    ensures { AllGives (text_lines bytes.now) result }
{
    let mut place = start(alloc, seed);
    for line in Lines::new(bytes) {
        next_line(alloc, &mut place, line)?;
    }
    let Place {
        mut reading,
        words,
        first,
        ..
    } = place;
    take_words(alloc, &mut reading, first, words.as_slice())?;
    Ok(reading)
}
