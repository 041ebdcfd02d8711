ghost use Rattle.std.specs.Prelude.{◌≡◌, ◌==◌, false, IfOk};
ghost use Rattle.act1_logtext.specs.Answers as answers;
ghost use Rattle.act1_logtext.specs.Answers.{answer_format, answer_table};
ghost use Rattle.act1_logtext.specs.ReadSteps.{answer_step_on};
ghost use Rattle.act1_table.specs.Formats.{read_own};
ghost use Rattle.act1_base.specs.Capped.{at_most};
ghost use Rattle.act1_table.specs.Table.{table_of};
ghost use Rattle.act1_table.specs.Values as values;

use crate::draft::AnswerLine;
use crate::step_read::{is_step_line, read_step_line};
use crate::steps::STEP_FORM;
use act1_base::Memory;
use act1_table::{Field, Form, Given, Limit, LineGiven, Part, number_at, read_line};
use std::alloc::Global;

// The numbers of the forms in the table.
pub(crate) const HEADER: usize = 0;

pub(crate) const ASSIGNED: usize = 1;

pub(crate) const TAKE: usize = 2;

pub(crate) const REFUTED: usize = 3;

pub(crate) const STEP: usize = 4;

pub(crate) const SPENT: usize = 5;

pub(crate) const END: usize = 6;

const NOTHING: Field = Field::OneOf(&[]);

const TRACK: Field = Field::OneOf(&[&[Part::Number(Limit::Most(65_535))]]);

const CONFLICTS: Field = Field::OneOf(&[&[Part::Number(Limit::Most(u64::MAX))]]);

const ANSWER_LINES: &[Form] = &[
    Form {
        fields: &[
            Field::OneOf(&[&[Part::Text(b"act1")]]),
            Field::OneOf(&[&[Part::Text(b"answer")]]),
            Field::OneOf(&[&[Part::Text(b"1")]]),
        ],
        rest: NOTHING,
    },
    Form {
        fields: &[Field::OneOf(&[&[Part::Text(b"assigned")]])],
        rest: NOTHING,
    },
    Form {
        fields: &[Field::OneOf(&[&[Part::Text(b"take")]]), TRACK],
        rest: NOTHING,
    },
    Form {
        fields: &[Field::OneOf(&[&[Part::Text(b"refuted")]])],
        rest: NOTHING,
    },
    STEP_FORM,
    Form {
        fields: &[Field::OneOf(&[&[Part::Text(b"spent")]]), CONFLICTS],
        rest: NOTHING,
    },
    Form {
        fields: &[Field::OneOf(&[&[Part::Text(b"end")]])],
        rest: NOTHING,
    },
];

/// The forms of the lines.
pub(crate) fn answer_table() -> &'static [Form]
    ensures { table_of result.now ≡ answer_table }
{
    ANSWER_LINES
}

// The track of a line.
fn track_of(words: &[Given]) -> u16
    ensures { result ≡ at_most 65535 (values.number_at words.now 1) }
{
    let track = number_at(words, 1);
    if track <= 65_535 {
        track as u16
    } else {
        65_535
    }
}

// The line of a step, if the bytes say one.
fn read_answer_step(alloc: Global, bytes: &[u8]) -> Result<Option<AnswerLine>, Memory>
    ensures { IfOk result (λ line. line ≡ answer_step_on bytes.now) }
{
    match read_step_line(alloc, bytes)? {
        Some(step) => Ok(Some(AnswerLine::Step(step))),
        None => Ok(None),
    }
}

// What a line of the table says that isn't of the form of a step.
fn line_of(given: &LineGiven) -> Option<AnswerLine>
    requires { (given.now.form == 4) ≡ false }
    ensures { result ≡ answers.line_of given.now }
{
    let words = given.words.as_slice();
    match given.form {
        HEADER => Some(AnswerLine::Header),
        ASSIGNED => Some(AnswerLine::Assigned),
        TAKE => Some(AnswerLine::Take(track_of(words))),
        REFUTED => Some(AnswerLine::Refuted),
        SPENT => Some(AnswerLine::Spent(number_at(words, 1))),
        END => Some(AnswerLine::End),
        _ => None,
    }
}

/// The line that the bytes say, if they say one. A step is read straight into its choices and hints, since it may
/// have millions of them; the other lines are short.
pub(crate) fn read_answer_line(alloc: Global, bytes: &[u8]) -> Result<Option<AnswerLine>, Memory>
    ensures { IfOk result (λ line. line ≡ read_own answer_format bytes.now) }
{
    if is_step_line(bytes) {
        return read_answer_step(alloc, bytes);
    }
    match read_line(alloc, answer_table(), bytes)? {
        Some(given) => Ok(line_of(&given)),
        None => Ok(None),
    }
}
