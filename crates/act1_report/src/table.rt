ghost use Rattle.std.specs.Prelude.{◌≡◌, ◌==◌, false, IfOk};
ghost use Rattle.act1_report.specs.Lines as lines;
ghost use Rattle.act1_report.specs.Lines.{report_format, report_table};
ghost use Rattle.act1_report.specs.ReadSteps.{report_step_on};
ghost use Rattle.act1_table.specs.Formats.{read_own};
ghost use Rattle.act1_table.specs.Table.{table_of};

use crate::line::ReportLine;
use act1_base::Memory;
use act1_logtext::{STEP_FORM, is_step_line, read_step_line};
use act1_plan::{
    CLOCK_FORM, DEVICE_FORM, INPUT_FORM, K_FORM, MODULE_FORM, OUTPUT_FORM, START_FORM, plan_line_of,
};
use act1_table::{Field, Form, Limit, LineGiven, Part, at_most, number_at, read_line};
use std::alloc::Global;

// The numbers of the forms in the table; those of a plan come first.
const HEADER: usize = 7;

const CHANNEL: usize = 8;

/// The number of the form of a step.
pub(crate) const STEP: usize = 9;

const END: usize = 10;

const NOTHING: Field = Field::OneOf(&[]);

const REPORT_LINES: &[Form] = &[
    DEVICE_FORM,
    K_FORM,
    CLOCK_FORM,
    INPUT_FORM,
    OUTPUT_FORM,
    START_FORM,
    MODULE_FORM,
    Form {
        fields: &[
            Field::OneOf(&[&[Part::Text(b"act1")]]),
            Field::OneOf(&[&[Part::Text(b"report")]]),
            Field::OneOf(&[&[Part::Text(b"1")]]),
        ],
        rest: NOTHING,
    },
    Form {
        fields: &[
            Field::OneOf(&[&[Part::Text(b"channel")]]),
            Field::OneOf(&[&[Part::Number(Limit::Most(255))]]),
        ],
        rest: NOTHING,
    },
    STEP_FORM,
    Form {
        fields: &[Field::OneOf(&[&[Part::Text(b"end")]])],
        rest: NOTHING,
    },
];

/// The forms of the lines.
pub(crate) fn report_table() -> &'static [Form]
    ensures { table_of result.now ≡ report_table }
{
    REPORT_LINES
}

// The line of a step, if the bytes say one.
fn read_report_step(alloc: Global, bytes: &[u8]) -> Result<Option<ReportLine>, Memory>
    ensures { IfOk result (λ line. line ≡ report_step_on bytes.now) }
{
    match read_step_line(alloc, bytes)? {
        Some(step) => Ok(Some(ReportLine::Step { step })),
        None => Ok(None),
    }
}

// The line of the plan, if the line of the table says one.
fn as_plan(alloc: Global, given: &LineGiven) -> Result<Option<ReportLine>, Memory>
    ensures { IfOk result (λ line. line ≡ lines.as_plan given.now) }
{
    match plan_line_of(alloc, given)? {
        Some(line) => Ok(Some(ReportLine::Plan { line })),
        None => Ok(None),
    }
}

// What a line of the table says that isn't of the form of a step.
fn line_of(alloc: Global, given: &LineGiven) -> Result<Option<ReportLine>, Memory>
    requires { (given.now.form == 9) ≡ false }
    ensures { IfOk result (λ line. line ≡ lines.line_of given.now) }
{
    let words = given.words.as_slice();
    match given.form {
        HEADER => Ok(Some(ReportLine::Header)),
        CHANNEL => Ok(Some(ReportLine::Channel {
            channel: at_most(255, number_at(words, 1)),
        })),
        END => Ok(Some(ReportLine::End)),
        _ => as_plan(alloc, given),
    }
}

/// The line that the bytes say, if they say one. A step is read straight into its choices and hints, since it may
/// have millions of them; the other lines are short.
#[tactic(auto, using(crate::proofs::StepForms::report_step_read))]
pub(crate) fn read_report_line(alloc: Global, bytes: &[u8]) -> Result<Option<ReportLine>, Memory>
    ensures { IfOk result (λ line. line ≡ read_own report_format bytes.now) }
{
    if is_step_line(bytes) {
        return read_report_step(alloc, bytes);
    }
    match read_line(alloc, report_table(), bytes)? {
        Some(given) => line_of(alloc, &given),
        None => Ok(None),
    }
}
