ghost use Rattle.std.specs.Prelude.{ℕ, List, ◌≡◌, ◌+◌, ◌<◌, ◌≤◌, ◌^◌, length, map, OnOk};
ghost use Rattle.act1_bliftext.specs.Lines.{Line};
ghost use Rattle.act1_bliftext.specs.ReadingSteps.{FormGives, IsClosed, IsNames, IsRead, IsNoRow, TakesLine, UnderGives, left, open_marks};

use crate::after::{after_end, after_latch, after_model, after_names, after_ports};
use crate::fault::BlifKind;
use crate::form::Form;
use crate::forms::{form_of, is_byte_fault};
use crate::open_names::OpenNames;
use crate::reading::Reading;
use crate::rows::row_under;
use crate::statement::{NumberedStatement, Statement};
use act1_base::{Memory, Stop};
use act1_logic::Cover;
use std::alloc::Global;

// What a `.names` with its rows says.
fn statement_of(names: OpenNames) -> NumberedStatement
    ensures line { result.line ≡ names.line }
    ensures names { IsNames names result.statement }
{
    let OpenNames {
        line,
        inputs,
        output,
        value,
        rows,
        ..
    } = names;
    let cover = Cover {
        width: inputs.len() as u8,
        output: value,
        rows,
    };
    NumberedStatement {
        line,
        statement: Statement::Names {
            inputs,
            output,
            cover,
        },
    }
}

/// Adds what an open `.names` says, so that no row may come any more.
pub fn close(reading: &mut Reading) -> Result<(), Memory>
    ensures { OnOk result (IsClosed reading.old reading.new) }
{
    if let Some(names) = reading.open_names.take() {
        reading.statements.push(statement_of(names))?;
    }
    Ok(())
}

// Reads a row.
fn after_row(
    alloc: Global,
    reading: &mut Reading,
    first: &[u8],
    rest: &[&[u8]],
) -> Result<(), Stop<BlifKind>>
    requires { open_marks reading.old.open_names + length first.now < 2 ^ 32 }
    ensures { UnderGives reading.old.open_names first.now (map (λ w. w.now) rest.now) reading.old (left reading.new result) }
{
    let Some(open_names) = reading.open_names.take() else {
        return Err(Stop::Fault(BlifKind::Row));
    };
    reading.open_names = Some(row_under(alloc, open_names, first, rest)?);
    reading.is_later = true;
    Ok(())
}

// Reads a line that is no row.
fn after_form(
    alloc: Global,
    reading: &mut Reading,
    form: Form,
    number: u32,
    rest: &[&[u8]],
) -> Result<(), Stop<BlifKind>>
    requires { IsNoRow form }
    ensures { FormGives form number (map (λ w. w.now) rest.now) reading.old (left reading.new result) }
{
    match form {
        Form::Model => after_model(alloc, reading, rest),
        Form::Inputs | Form::Outputs | Form::Clock => {
            after_ports(alloc, reading, form, number, rest)
        }
        Form::Names => after_names(alloc, reading, number, rest),
        Form::Latch => after_latch(alloc, reading, number, rest),
        Form::End => after_end(reading, rest),
        Form::Unknown => Err(Stop::Fault(BlifKind::Word)),
        Form::Row => unreachable!(),
    }
}

/// Reads a line with words, or finds the first kind of fault that the line has.
pub fn after_line(
    alloc: Global,
    reading: &mut Reading,
    number: u32,
    first: &[u8],
    rest: &[&[u8]],
) -> Result<(), Stop<BlifKind>>
    requires { open_marks reading.old.open_names + length first.now < 2 ^ 32 }
    ensures takes { (above : List Line) → IsRead above reading.old → TakesLine above (record { number = number; first = first.now; rest = map (λ w. w.now) rest.now }) (left reading.new result) }
    ensures marks { OnOk result (open_marks reading.new.open_names ≤ open_marks reading.old.open_names + length first.now) }
{
    if is_byte_fault(first, rest) {
        return Err(Stop::Fault(BlifKind::Byte));
    }
    match form_of(first) {
        Form::Row => after_row(alloc, reading, first, rest),
        form => {
            close(reading)?;
            after_form(alloc, reading, form, number, rest)
        }
    }
}
