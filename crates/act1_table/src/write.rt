ghost use Rattle.std.specs.Prelude.{◌≡◌, ◌++◌, OnOk};
ghost use Rattle.std.specs.List.{join_with_byte};
ghost use Rattle.act1_table.specs.Forms.{spell_parts, spell_way, spell, spell_fields};
ghost use Rattle.act1_table.specs.Lines.{line_text};
ghost use Rattle.act1_table.specs.Table.{parts_of, ways_of, field_of, fields_of, table_of};
ghost use Rattle.act1_table.specs.WriteSteps.{spaced};

use crate::forms::{Field, Form, Given, LineGiven, Part};
use act1_base::{Memory, write_number};

// Adds the parts with these numbers.
fn write_parts(text: &mut Vec<u8>, parts: &[Part], numbers: &[u64]) -> Result<(), Memory>
    ensures { OnOk result (text.new.items ≡ text.old.items ++ spell_parts (parts_of parts.now) numbers.now) }
{
    let mut rest = numbers;
    for part in parts {
        match *part {
            Part::Text(bytes) => text.extend_from_slice(bytes)?,
            Part::Number(_) => match rest {
                [first, others @ ..] => {
                    write_number(text, *first)?;
                    rest = others;
                }
                [] => return Ok(()),
            },
        }
    }
    Ok(())
}

// Adds the way of this number.
#[tactic(auto, using(crate::proofs::WriteLaws::way_there, crate::proofs::WriteLaws::no_way))]
fn write_way(
    text: &mut Vec<u8>,
    ways: &[&[Part]],
    way: usize,
    numbers: &[u64],
) -> Result<(), Memory>
    ensures { OnOk result (text.new.items ≡ text.old.items ++ spell_way (ways_of ways.now) way numbers.now) }
{
    if way < ways.len() {
        write_parts(text, ways[way], numbers)?;
    }
    Ok(())
}

// Adds a word.
fn write_word(text: &mut Vec<u8>, field: Field, given: &Given) -> Result<(), Memory>
    ensures { OnOk result (text.new.items ≡ text.old.items ++ spell (field_of field) given.now) }
{
    match given {
        Given::Name(name) => text.extend_from_slice(name.as_bytes())?,
        Given::Way { way, numbers } => match field {
            Field::OneOf(ways) => write_way(text, ways, *way, numbers.as_slice())?,
            Field::Name => (),
        },
    }
    Ok(())
}

// Adds a word, with a space in front but for the first.
fn write_next(text: &mut Vec<u8>, at: usize, field: Field, given: &Given) -> Result<(), Memory>
    ensures { OnOk result (text.new.items ≡ text.old.items ++ spaced at (spell (field_of field) given.now)) }
{
    if at > 0 {
        text.push(b' ')?;
    }
    write_word(text, field, given)
}

// Adds the words of a line of this form.
fn write_fields(
    text: &mut Vec<u8>,
    fields: &[Field],
    rest: Field,
    words: &[Given],
) -> Result<(), Memory>
    ensures { OnOk result (text.new.items ≡ text.old.items ++ join_with_byte 32 (spell_fields (fields_of fields.now) (field_of rest) words.now)) }
{
    for (at, given) in words.iter().enumerate() {
        let field = if at < fields.len() { fields[at] } else { rest };
        write_next(text, at, field, given)?;
    }
    Ok(())
}

/// Adds the line that says this, without its line feed. What can't be said adds what can be said of it: of a
/// form that the table lacks, no bytes.
#[tactic(auto, using(crate::proofs::WriteLaws::form_there, crate::proofs::WriteLaws::no_form))]
pub fn write_line(text: &mut Vec<u8>, table: &[Form], line: &LineGiven) -> Result<(), Memory>
    ensures { OnOk result (text.new.items ≡ text.old.items ++ line_text (table_of table.now) line.now) }
{
    if line.form < table.len() {
        let form = &table[line.form];
        write_fields(text, form.fields, form.rest, line.words.as_slice())?;
    }
    Ok(())
}
