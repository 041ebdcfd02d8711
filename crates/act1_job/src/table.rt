ghost use Rattle.std.specs.Prelude.{◌≡◌, map, IfOk};
ghost use Rattle.act1_table.specs.Formats.{read_own};
ghost use Rattle.act1_table.specs.Table.{table_of};
ghost use Rattle.act1_table.specs.Values.{number_up_to};
ghost use Rattle.act1_job.specs.Lines as lines;
ghost use Rattle.act1_job.specs.Lines.{job_table, job_format};

use crate::line::JobLine;
use act1_base::{Items, Memory};
use act1_channel::Connection;
use act1_table::{Field, Form, Given, Limit, LineGiven, Part, at_most, number_at, read_line};
use std::alloc::Global;

// The numbers of the forms in the table.
pub(crate) const HEADER: usize = 0;

pub(crate) const COLUMNS: usize = 1;

pub(crate) const K: usize = 2;

pub(crate) const BUDGET: usize = 3;

pub(crate) const TRACK: usize = 4;

pub(crate) const CONNECTION: usize = 5;

pub(crate) const END: usize = 6;

const NOTHING: Field = Field::OneOf(&[]);

const SMALL: Field = Field::OneOf(&[&[Part::Number(Limit::Most(64))]]);

const LARGE: Field = Field::OneOf(&[&[Part::Number(Limit::Most(1_000_000_000_000))]]);

const JOB_LINES: &[Form] = &[
    Form {
        fields: &[
            Field::OneOf(&[&[Part::Text(b"act1")]]),
            Field::OneOf(&[&[Part::Text(b"job")]]),
            Field::OneOf(&[&[Part::Text(b"1")]]),
        ],
        rest: NOTHING,
    },
    Form {
        fields: &[Field::OneOf(&[&[Part::Text(b"columns")]]), SMALL],
        rest: NOTHING,
    },
    Form {
        fields: &[Field::OneOf(&[&[Part::Text(b"k")]]), SMALL],
        rest: NOTHING,
    },
    Form {
        fields: &[Field::OneOf(&[&[Part::Text(b"budget")]]), LARGE],
        rest: NOTHING,
    },
    Form {
        fields: &[Field::OneOf(&[&[Part::Text(b"track")]])],
        rest: SMALL,
    },
    Form {
        fields: &[Field::OneOf(&[&[Part::Text(b"connection")]]), SMALL, SMALL],
        rest: NOTHING,
    },
    Form {
        fields: &[Field::OneOf(&[&[Part::Text(b"end")]])],
        rest: NOTHING,
    },
];

/// The forms of the lines.
pub(crate) fn job_table() -> &'static [Form]
    ensures { table_of result.now ≡ job_table }
{
    JOB_LINES
}

// The numbers of the words.
fn breaks_of(alloc: Global, words: &[Given]) -> Result<Items<u8>, Memory>
    ensures { IfOk result (λ breaks. breaks ≡ map (number_up_to 64) words.now) }
{
    let mut breaks = Items::new(alloc);
    for at in 0..words.len() {
        breaks.push(at_most(64, number_at(words, at)))?;
    }
    Ok(breaks)
}

// The track of the words behind the first.
fn track_of(alloc: Global, words: &[Given]) -> Result<Option<JobLine>, Memory>
    ensures { IfOk result (λ line. line ≡ lines.track_of words.now) }
{
    match words {
        [_, rest @ ..] => Ok(Some(JobLine::Track {
            breaks: breaks_of(alloc, rest)?,
        })),
        [] => Ok(None),
    }
}

// The number of the word at a place, as far as it has 64.
fn small_at(words: &[Given], at: usize) -> u8
    ensures { result ≡ lines.small_at words.now at }
{
    at_most(64, number_at(words, at))
}

// What a line of the table says.
fn line_of(alloc: Global, given: &LineGiven) -> Result<Option<JobLine>, Memory>
    ensures { IfOk result (λ line. line ≡ lines.line_of given.now) }
{
    let words = given.words.as_slice();
    match given.form {
        HEADER => Ok(Some(JobLine::Header)),
        COLUMNS => Ok(Some(JobLine::Columns {
            columns: small_at(words, 1),
        })),
        K => Ok(Some(JobLine::K {
            k: small_at(words, 1),
        })),
        BUDGET => Ok(Some(JobLine::Budget {
            budget: number_at(words, 1).min(1_000_000_000_000),
        })),
        TRACK => track_of(alloc, words),
        CONNECTION => Ok(Some(JobLine::Connection {
            connection: Connection {
                left: small_at(words, 1),
                right: small_at(words, 2),
            },
        })),
        END => Ok(Some(JobLine::End)),
        _ => Ok(None),
    }
}

/// The line that the bytes say, if they say one.
pub(crate) fn read_job_line(alloc: Global, bytes: &[u8]) -> Result<Option<JobLine>, Memory>
    ensures { IfOk result (λ line. line ≡ read_own job_format bytes.now) }
{
    match read_line(alloc, job_table(), bytes)? {
        Some(given) => line_of(alloc, &given),
        None => Ok(None),
    }
}
