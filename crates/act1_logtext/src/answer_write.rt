ghost use Rattle.std.specs.Prelude.{◌≡◌, [], ◌∷◌, ◌++◌, map, IfOk, OnOk};
ghost use Rattle.act1_base.specs.Words.{text_line, text_of_lines};
ghost use Rattle.act1_logtext.specs.Answers as answers;
ghost use Rattle.act1_logtext.specs.Answers.{answer_table, given_of, answer_text};
ghost use Rattle.act1_logtext.specs.WriteSteps.{body_words, take_words, step_line_words};
ghost use Rattle.act1_logtext.specs.declared.draft.AnswerLine.TheVariants.{Header, Assigned, Refuted};
ghost use Rattle.act1_table.specs.Forms.{line_words};

use crate::answer::Answer;
use crate::answer_table::{ASSIGNED, END, HEADER, REFUTED, SPENT, STEP, TAKE, answer_table};
use crate::steps::write_steps;
use act1_base::Memory;
use act1_channel::Step;
use act1_table::{LineGiven, write_line};
use std::alloc::Global;

// Adds the line with its line feed.
fn write_given(text: &mut Vec<u8>, given: &LineGiven) -> Result<(), Memory>
    ensures { OnOk result (text.new.items ≡ text.old.items ++ text_line (line_words answer_table given.now)) }
{
    write_line(text, answer_table(), given)?;
    text.push(b'\n')?;
    Ok(())
}

// Adds the first line.
fn write_header(alloc: Global, text: &mut Vec<u8>) -> Result<(), Memory>
    ensures { OnOk result (text.new.items ≡ text.old.items ++ text_line (line_words answer_table (given_of Header))) }
{
    let mut line = LineGiven::new(alloc, HEADER);
    line.add_fixed(alloc)?;
    line.add_fixed(alloc)?;
    line.add_fixed(alloc)?;
    write_given(text, &line)
}

// Adds the line of a word.
fn write_word(alloc: Global, text: &mut Vec<u8>, form: usize) -> Result<(), Memory>
    ensures { OnOk result (text.new.items ≡ text.old.items ++ text_line (line_words answer_table (answers.numbers_line form []))) }
{
    let mut line = LineGiven::new(alloc, form);
    line.add_fixed(alloc)?;
    write_given(text, &line)
}

// Adds the line of a word and a number.
fn write_number(alloc: Global, text: &mut Vec<u8>, form: usize, n: u64) -> Result<(), Memory>
    ensures { OnOk result (text.new.items ≡ text.old.items ++ text_line (line_words answer_table (answers.numbers_line form (n ∷ [])))) }
{
    let mut line = LineGiven::new(alloc, form);
    line.add_fixed(alloc)?;
    line.add_number(alloc, n)?;
    write_given(text, &line)
}

// Adds the lines of the tracks.
fn write_tracks(alloc: Global, text: &mut Vec<u8>, tracks: &[u16]) -> Result<(), Memory>
    ensures { OnOk result (text.new.items ≡ text.old.items ++ text_of_lines (map take_words tracks.now)) }
{
    for track in tracks {
        write_number(alloc, text, TAKE, u64::from(*track))?;
    }
    Ok(())
}

// Adds `assigned` and the lines of the tracks.
fn write_assigned(alloc: Global, text: &mut Vec<u8>, tracks: &[u16]) -> Result<(), Memory>
    ensures { OnOk result (text.new.items ≡ text.old.items ++ text_of_lines (line_words answer_table (given_of Assigned) ∷ map take_words tracks.now)) }
{
    write_word(alloc, text, ASSIGNED)?;
    write_tracks(alloc, text, tracks)
}

// Adds `refuted` and the lines of the steps.
fn write_refuted(alloc: Global, text: &mut Vec<u8>, steps: &[Step]) -> Result<(), Memory>
    ensures { OnOk result (text.new.items ≡ text.old.items ++ text_of_lines (line_words answer_table (given_of Refuted) ∷ map (step_line_words answer_table 4) steps.now)) }
{
    write_word(alloc, text, REFUTED)?;
    write_steps(alloc, text, answer_table(), STEP, steps)
}

// Adds the lines between the first and the last.
fn write_body(alloc: Global, text: &mut Vec<u8>, answer: &Answer) -> Result<(), Memory>
    ensures { OnOk result (text.new.items ≡ text.old.items ++ text_of_lines (body_words answer.now)) }
{
    match answer {
        Answer::Assigned(tracks) => write_assigned(alloc, text, tracks.as_slice()),
        Answer::Refuted(log) => write_refuted(alloc, text, log.steps.as_slice()),
        Answer::Spent(conflicts) => write_number(alloc, text, SPENT, *conflicts),
    }
}

/// The one text of an answer: `act1 answer 1`; then `assigned` and for each connection `take TRACK`, or `refuted`
/// and the lines of the log (`log_text`), or `spent CONFLICTS`; and `end`. Each is a line of words that are parted
/// by one space. Numbers are spelled by decimal digits without a leading zero.
pub fn answer_text(alloc: Global, answer: &Answer) -> Result<Vec<u8>, Memory>
    ensures { IfOk result (λ text. text.items ≡ answer_text answer.now) }
{
    let mut text = Vec::new(alloc);
    write_header(alloc, &mut text)?;
    write_body(alloc, &mut text, answer)?;
    write_word(alloc, &mut text, END)?;
    Ok(text)
}
