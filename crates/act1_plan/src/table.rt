ghost use Rattle.std.specs.Prelude.{◌≡◌, IfOk};
ghost use Rattle.act1_base.specs.Capped.{at_most};
ghost use Rattle.act1_table.specs.Formats.{read_own};
ghost use Rattle.act1_table.specs.Table.{table_of};
ghost use Rattle.act1_table.specs.Values as values;
ghost use Rattle.act1_plan.specs.Lines as lines;
ghost use Rattle.act1_plan.specs.Lines.{plan_table, plan_format};

use crate::line::PlanLine;
use act1_base::{Memory, Name};
use act1_circuit::{Output, Source, Spot, Start};
use act1_table::{
    Field, Form, Given, Limit, LineGiven, Part, at_most, name_at, number_at, read_line, way_at,
};
use std::alloc::Global;

// The numbers of the forms in the table.
const DEVICE: usize = 0;

const K: usize = 1;

const CLOCK: usize = 2;

const INPUT: usize = 3;

const OUTPUT: usize = 4;

const START: usize = 5;

const MODULE: usize = 6;

const NOTHING: Field = Field::OneOf(&[]);

const BYTE: Field = Field::OneOf(&[&[Part::Number(Limit::Most(255))]]);

const SOURCE: Field = Field::OneOf(&[
    &[Part::Text(b"0")],
    &[Part::Text(b"1")],
    &[Part::Text(b"c")],
    &[Part::Text(b"i"), Part::Number(Limit::Most(65_535))],
    &[Part::Text(b"m"), Part::Number(Limit::Most(65_535))],
]);

/// `device NAME`
pub const DEVICE_FORM: Form = Form {
    fields: &[Field::OneOf(&[&[Part::Text(b"device")]]), Field::Name],
    rest: NOTHING,
};

/// `k K`, with at most 255
pub const K_FORM: Form = Form {
    fields: &[Field::OneOf(&[&[Part::Text(b"k")]]), BYTE],
    rest: NOTHING,
};

/// `clock NAME`
pub const CLOCK_FORM: Form = Form {
    fields: &[Field::OneOf(&[&[Part::Text(b"clock")]]), Field::Name],
    rest: NOTHING,
};

/// `in NAME`
pub const INPUT_FORM: Form = Form {
    fields: &[Field::OneOf(&[&[Part::Text(b"in")]]), Field::Name],
    rest: NOTHING,
};

/// `out SOURCE NAME`
pub const OUTPUT_FORM: Form = Form {
    fields: &[Field::OneOf(&[&[Part::Text(b"out")]]), SOURCE, Field::Name],
    rest: NOTHING,
};

/// `start MODULE INIT NAME`
pub const START_FORM: Form = Form {
    fields: &[
        Field::OneOf(&[&[Part::Text(b"start")]]),
        Field::OneOf(&[&[Part::Number(Limit::Most(65_535))]]),
        Field::OneOf(&[&[Part::Number(Limit::Most(3))]]),
        Field::Name,
    ],
    rest: NOTHING,
};

/// `module ROW COLUMN` and the sources of its eight pins
pub const MODULE_FORM: Form = Form {
    fields: &[
        Field::OneOf(&[&[Part::Text(b"module")]]),
        BYTE,
        BYTE,
        SOURCE,
        SOURCE,
        SOURCE,
        SOURCE,
        SOURCE,
        SOURCE,
        SOURCE,
        SOURCE,
    ],
    rest: NOTHING,
};

const PLAN_LINES: &[Form] = &[
    DEVICE_FORM,
    K_FORM,
    CLOCK_FORM,
    INPUT_FORM,
    OUTPUT_FORM,
    START_FORM,
    MODULE_FORM,
];

/// The forms of the lines.
pub(crate) fn plan_table() -> &'static [Form]
    ensures { table_of result.now ≡ plan_table }
{
    PLAN_LINES
}

// The number of the word at a place, as far as it has 65,535.
fn number_16_at(words: &[Given], at: usize) -> u16
    ensures { result ≡ at_most 65535 (values.number_at words.now at) }
{
    let n = number_at(words, at);
    if n <= 65_535 { n as u16 } else { 65_535 }
}

// The source of the word at a place.
fn source_at(words: &[Given], at: usize) -> Source
    ensures { result ≡ lines.source_at words.now at }
{
    match way_at(words, at) {
        0 => Source::Zero,
        1 => Source::One,
        2 => Source::Clock,
        3 => Source::Input(number_16_at(words, at)),
        _ => Source::Module(number_16_at(words, at)),
    }
}

// The name of the word at a place.
fn copy_at(alloc: Global, words: &[Given], at: usize) -> Result<Name, Memory>
    ensures { IfOk result (λ name. name ≡ values.name_at words.now at) }
{
    Name::new(alloc, name_at(words, at))
}

// The output of the words.
fn output_of(alloc: Global, words: &[Given]) -> Result<Output, Memory>
    ensures { IfOk result (λ output. output ≡ lines.output_of words.now) }
{
    Ok(Output {
        name: copy_at(alloc, words, 2)?,
        source: source_at(words, 1),
    })
}

// The start of the words.
fn start_of(alloc: Global, words: &[Given]) -> Result<Start, Memory>
    ensures { IfOk result (λ start. start ≡ lines.start_of words.now) }
{
    Ok(Start {
        module: number_16_at(words, 1),
        init: at_most(3, number_at(words, 2)),
        name: copy_at(alloc, words, 3)?,
    })
}

// Where the module of the words stands.
fn spot_of(words: &[Given]) -> Spot
    ensures { result ≡ lines.spot_of words.now }
{
    Spot {
        row: at_most(255, number_at(words, 1)),
        column: at_most(255, number_at(words, 2)),
    }
}

// The sources of the eight words from the fourth on.
fn pins_of(words: &[Given]) -> [Source; 8]
    ensures { result ≡ lines.pins_of words.now }
{
    [
        source_at(words, 3),
        source_at(words, 4),
        source_at(words, 5),
        source_at(words, 6),
        source_at(words, 7),
        source_at(words, 8),
        source_at(words, 9),
        source_at(words, 10),
    ]
}

/// The line of a plan that a line of a table says in which the forms of a plan have their numbers, which are those
/// from `DEVICE_FORM` with 0 to `MODULE_FORM` with 6. It says none where its form has another number.
pub fn plan_line_of(alloc: Global, given: &LineGiven) -> Result<Option<PlanLine>, Memory>
    ensures { IfOk result (λ line. line ≡ lines.line_of given.now) }
{
    let words = given.words.as_slice();
    match given.form {
        DEVICE => Ok(Some(PlanLine::Device {
            name: copy_at(alloc, words, 1)?,
        })),
        K => Ok(Some(PlanLine::K {
            k: at_most(255, number_at(words, 1)),
        })),
        CLOCK => Ok(Some(PlanLine::Clock {
            name: copy_at(alloc, words, 1)?,
        })),
        INPUT => Ok(Some(PlanLine::Input {
            name: copy_at(alloc, words, 1)?,
        })),
        OUTPUT => Ok(Some(PlanLine::Output {
            output: output_of(alloc, words)?,
        })),
        START => Ok(Some(PlanLine::Start {
            start: start_of(alloc, words)?,
        })),
        MODULE => Ok(Some(PlanLine::Module {
            spot: spot_of(words),
            pins: pins_of(words),
        })),
        _ => Ok(None),
    }
}

/// The line that the bytes say, if they say one.
pub(crate) fn read_plan_line(alloc: Global, bytes: &[u8]) -> Result<Option<PlanLine>, Memory>
    ensures { IfOk result (λ line. line ≡ read_own plan_format bytes.now) }
{
    match read_line(alloc, plan_table(), bytes)? {
        Some(given) => plan_line_of(alloc, &given),
        None => Ok(None),
    }
}
