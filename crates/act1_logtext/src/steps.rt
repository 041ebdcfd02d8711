ghost use Rattle.std.specs.Prelude.{◌≡◌, ◌++◌, map, IfOk, OnOk};
ghost use Rattle.act1_base.specs.Words.{text_line, text_of_lines};
ghost use Rattle.act1_logtext.specs.StepLines as lines;
ghost use Rattle.act1_logtext.specs.StepLines.{choice_given, hint_given};
ghost use Rattle.act1_logtext.specs.WriteSteps.{step_line_words, with_words};
ghost use Rattle.act1_table.specs.Table.{table_of};
ghost use Rattle.act1_table.specs.Values.{with_word};

use act1_base::Memory;
use act1_channel::{Choice, Hint, Step};
use act1_table::{Field, Form, Limit, LineGiven, Part, write_line};
use std::alloc::Global;

// The ways of the words behind `step`, by their numbers.
pub(crate) const CHOICE: usize = 0;

pub(crate) const COLON: usize = 1;

pub(crate) const AT_LEAST: usize = 2;

pub(crate) const CLASH: usize = 3;

pub(crate) const STEP: usize = 4;

const CONNECTION: Part = Part::Number(Limit::Most(65_535));

const TRACK: Part = Part::Number(Limit::Most(255));

/// The form of a line of a log: `step`, the choices, `:` and the hints. A choice is `C@T`, for connection C on
/// track T. A hint is `aC`, `xC,D@T` or `sN`, which name a clause: that C takes one of its allowed tracks, that C
/// and D don't both take T, and that not all choices of step N are taken.
pub const STEP_FORM: Form = Form {
    fields: &[Field::OneOf(&[&[Part::Text(b"step")]])],
    rest: Field::OneOf(&[
        &[CONNECTION, Part::Text(b"@"), TRACK],
        &[Part::Text(b":")],
        &[Part::Text(b"a"), CONNECTION],
        &[
            Part::Text(b"x"),
            CONNECTION,
            Part::Text(b","),
            CONNECTION,
            Part::Text(b"@"),
            TRACK,
        ],
        &[Part::Text(b"s"), Part::Number(Limit::Most(4_294_967_295))],
    ]),
};

// Adds the words of the choices.
fn add_choices(alloc: Global, line: &mut LineGiven, choices: &[Choice]) -> Result<(), Memory>
    ensures { OnOk result (line.new ≡ with_words line.old (map choice_given choices.now)) }
{
    for choice in choices {
        let numbers = [u64::from(choice.connection), u64::from(choice.track)];
        line.add_way(alloc, CHOICE, &numbers)?;
    }
    Ok(())
}

// Adds the word of a hint.
fn add_hint(alloc: Global, line: &mut LineGiven, hint: Hint) -> Result<(), Memory>
    ensures { OnOk result (line.new ≡ with_word line.old (hint_given hint)) }
{
    match hint {
        Hint::AtLeast(connection) => line.add_way(alloc, AT_LEAST, &[u64::from(connection)]),
        Hint::Clash {
            first,
            second,
            track,
        } => line.add_way(
            alloc,
            CLASH,
            &[u64::from(first), u64::from(second), u64::from(track)],
        ),
        Hint::Step(number) => line.add_way(alloc, STEP, &[u64::from(number)]),
    }
}

// Adds the words of the hints.
fn add_hints(alloc: Global, line: &mut LineGiven, hints: &[Hint]) -> Result<(), Memory>
    ensures { OnOk result (line.new ≡ with_words line.old (map hint_given hints.now)) }
{
    for hint in hints {
        add_hint(alloc, line, *hint)?;
    }
    Ok(())
}

/// The line that says the step, in a table in which `STEP_FORM` has this number.
pub fn step_line(alloc: Global, form: usize, step: &Step) -> Result<LineGiven, Memory>
    ensures { IfOk result (λ line. line ≡ lines.step_line form step.now) }
{
    let mut line = LineGiven::new(alloc, form);
    line.add_fixed(alloc)?;
    add_choices(alloc, &mut line, step.choices.as_slice())?;
    line.add_way(alloc, COLON, &[])?;
    add_hints(alloc, &mut line, step.hints.as_slice())?;
    Ok(line)
}

// Adds the line of the step with its line feed.
fn write_step(
    alloc: Global,
    text: &mut Vec<u8>,
    table: &[Form],
    form: usize,
    step: &Step,
) -> Result<(), Memory>
    ensures { OnOk result (text.new.items ≡ text.old.items ++ text_line (step_line_words (table_of table.now) form step.now)) }
{
    let line = step_line(alloc, form, step)?;
    write_line(text, table, &line)?;
    text.push(b'\n')?;
    Ok(())
}

/// Adds the lines of the steps, each with its line feed, in a table in which `STEP_FORM` has this number.
pub fn write_steps(
    alloc: Global,
    text: &mut Vec<u8>,
    table: &[Form],
    form: usize,
    steps: &[Step],
) -> Result<(), Memory>
    ensures { OnOk result (text.new.items ≡ text.old.items ++ text_of_lines (map (step_line_words (table_of table.now) form) steps.now)) }
{
    for step in steps {
        write_step(alloc, text, table, form, step)?;
    }
    Ok(())
}
