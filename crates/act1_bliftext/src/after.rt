ghost use Rattle.std.specs.Prelude.{ℕ, List, ◌≡◌, ◌≤◌, ◌++◌, ◌∷◌, [], true, length, map, IfOk};
ghost use Rattle.act1_bliftext.specs.LatchSteps.{control_word, bytes_in};
ghost use Rattle.act1_bliftext.specs.ReadingSteps.{FormGives, IsPort, LatchFollows, NamesFault, form_fault, left};
ghost use Rattle.act1_bliftext.specs.Forms.{model_name};
ghost use Rattle.act1_bliftext.specs.Statements.{form_in, numbers_in};
ghost use Rattle.act1_bliftext.specs.declared.form.Form.TheVariants as form;

use crate::fault::BlifKind;
use crate::form::Form;
use crate::forms::has_long;
use crate::latch::{add_latch, latch_rest, latch_statement};
use crate::open_names::OpenNames;
use crate::reading::Reading;
use crate::statement::{NumberedStatement, Statement};
use act1_base::{Items, Memory, Name, Stop};
use std::alloc::Global;

// The name behind `.model`.
fn model_name(alloc: Global, rest: &[&[u8]]) -> Result<Option<Name>, Memory>
    ensures { IfOk result (λ name. name ≡ model_name (map (λ w. w.now) rest.now)) }
{
    match rest {
        [name, ..] => Ok(Some(Name::new(alloc, name)?)),
        [] => Ok(None),
    }
}

// The first fault of a `.model` with these words behind it.
fn model_fault(is_later: bool, has_ended: bool, rest: &[&[u8]]) -> Option<BlifKind>
    ensures { (known : List (List ℕ)) → form_fault form.Model is_later has_ended known (map (λ w. w.now) rest.now) ≡ result }
{
    if rest.len() > 1 {
        return Some(BlifKind::Shape);
    }
    if is_later || has_ended {
        return Some(BlifKind::After);
    }
    if has_long(rest) {
        return Some(BlifKind::Limit);
    }
    None
}

/// Reads a `.model`.
pub fn after_model(
    alloc: Global,
    reading: &mut Reading,
    rest: &[&[u8]],
) -> Result<(), Stop<BlifKind>>
    ensures { (number : ℕ) → FormGives form.Model number (map (λ w. w.now) rest.now) reading.old (left reading.new result) }
{
    if let Some(kind) = model_fault(reading.is_later, reading.has_ended, rest) {
        return Err(Stop::Fault(kind));
    }
    reading.model = model_name(alloc, rest)?;
    reading.open_names = None;
    reading.is_later = true;
    Ok(())
}

// What a line of ports with these numbers of names says.
fn port_statement(form: Form, numbers: Items<u16>) -> Statement
    requires { IsPort form }
    ensures form { form_in result ≡ form }
    ensures numbers { numbers_in result ≡ numbers }
{
    match form {
        Form::Inputs => Statement::Inputs(numbers),
        Form::Outputs => Statement::Outputs(numbers),
        Form::Clock => Statement::Clock(numbers),
        _ => unreachable!(),
    }
}

/// Reads `.inputs`, `.outputs` or `.clock`.
pub fn after_ports(
    alloc: Global,
    reading: &mut Reading,
    form: Form,
    number: u32,
    rest: &[&[u8]],
) -> Result<(), Stop<BlifKind>>
    requires { IsPort form }
    ensures { FormGives form number (map (λ w. w.now) rest.now) reading.old (left reading.new result) }
{
    if reading.has_ended {
        return Err(Stop::Fault(BlifKind::After));
    }
    let numbers = reading.names.add(alloc, rest)?;
    reading.statements.push(NumberedStatement {
        line: number,
        statement: port_statement(form, numbers),
    })?;
    reading.open_names = None;
    reading.is_later = true;
    Ok(())
}

// A `.names` with these numbers of names, to which rows may come.
fn open_names(alloc: Global, line: u32, numbers: Items<u16>) -> OpenNames
    requires some { 1 ≤ length numbers }
    requires few { length numbers ≤ 65 }
    ensures line { result.line ≡ line }
    ensures numbers { result.inputs ++ result.output ∷ [] ≡ numbers }
    ensures value { result.value ≡ true }
    ensures rows { result.rows ≡ [] }
{
    let mut inputs = numbers.into_vec();
    let Some(output) = inputs.pop() else {
        unreachable!()
    };
    OpenNames {
        line,
        inputs: Items::from_vec(inputs),
        output,
        value: true,
        rows: Items::new(alloc),
    }
}

// The first fault of a `.names` with these words behind it, but for names that are too many.
fn names_fault(has_ended: bool, rest: &[&[u8]]) -> Option<BlifKind>
    ensures { NamesFault has_ended (map (λ w. w.now) rest.now) result }
{
    if rest.is_empty() {
        return Some(BlifKind::Shape);
    }
    if has_ended {
        return Some(BlifKind::After);
    }
    if rest.len() > 65 {
        return Some(BlifKind::Limit);
    }
    None
}

/// Reads a `.names`.
pub fn after_names(
    alloc: Global,
    reading: &mut Reading,
    number: u32,
    rest: &[&[u8]],
) -> Result<(), Stop<BlifKind>>
    ensures { FormGives form.Names number (map (λ w. w.now) rest.now) reading.old (left reading.new result) }
{
    if let Some(kind) = names_fault(reading.has_ended, rest) {
        return Err(Stop::Fault(kind));
    }
    let numbers = reading.names.add(alloc, rest)?;
    reading.open_names = Some(open_names(alloc, number, numbers));
    reading.is_later = true;
    Ok(())
}

// Reads a latch of these names and this init.
fn with_latch(
    alloc: Global,
    reading: &mut Reading,
    number: u32,
    input: &[u8],
    output: &[u8],
    control: Option<&[u8]>,
    init: u8,
) -> Result<(), Stop<BlifKind>>
    ensures { LatchFollows number (input.now ∷ output.now ∷ control_word (bytes_in control.entry)) init reading.old (left reading.new result) }
{
    if reading.has_ended {
        return Err(Stop::Fault(BlifKind::After));
    }
    let numbers = add_latch(&mut reading.names, alloc, input, output, control)?;
    reading.statements.push(NumberedStatement {
        line: number,
        statement: latch_statement(numbers.as_slice(), init),
    })?;
    reading.open_names = None;
    reading.is_later = true;
    Ok(())
}

// Reads a latch of these words.
fn after_latch_words(
    alloc: Global,
    reading: &mut Reading,
    number: u32,
    input: &[u8],
    output: &[u8],
    more: &[&[u8]],
) -> Result<(), Stop<BlifKind>>
    ensures { FormGives form.Latch number (input.now ∷ output.now ∷ map (λ w. w.now) more.now) reading.old (left reading.new result) }
{
    match latch_rest(more) {
        Ok((control, init)) => with_latch(alloc, reading, number, input, output, control, init),
        Err(kind) => Err(Stop::Fault(kind)),
    }
}

/// Reads a `.latch`.
pub fn after_latch(
    alloc: Global,
    reading: &mut Reading,
    number: u32,
    rest: &[&[u8]],
) -> Result<(), Stop<BlifKind>>
    ensures { FormGives form.Latch number (map (λ w. w.now) rest.now) reading.old (left reading.new result) }
{
    match rest {
        [input, output, more @ ..] => {
            after_latch_words(alloc, reading, number, input, output, more)
        }
        _ => Err(Stop::Fault(BlifKind::Shape)),
    }
}

/// Reads an `.end`.
pub fn after_end(reading: &mut Reading, rest: &[&[u8]]) -> Result<(), Stop<BlifKind>>
    ensures { (number : ℕ) → FormGives form.End number (map (λ w. w.now) rest.now) reading.old (left reading.new result) }
{
    if !rest.is_empty() {
        return Err(Stop::Fault(BlifKind::Shape));
    }
    if reading.has_ended {
        return Err(Stop::Fault(BlifKind::After));
    }
    reading.open_names = None;
    reading.is_later = true;
    reading.has_ended = true;
    Ok(())
}
