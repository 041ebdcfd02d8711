ghost use Rattle.std.specs.Prelude.{◌≡◌, [], ◌++◌, ◌∷◌, length, IfOk};
ghost use Rattle.act1_base.specs.Words.{words_of};
ghost use Rattle.act1_table.specs.Lines.{read_line};
ghost use Rattle.act1_table.specs.Reads.{digits_in_front, number_of, read_parts, read_ways, read_word, read_fields, read_forms};
ghost use Rattle.act1_table.specs.Reads as reads;
ghost use Rattle.act1_table.specs.ReadSteps.{some_if, may_have, is_nothing};
ghost use Rattle.act1_table.specs.Table.{parts_of, ways_of, field_of, fields_of, table_of};

use crate::forms::{Field, Form, Given, Limit, LineGiven, Part};
use crate::numbers::Numbers;
use crate::words::Words;
use act1_base::{Items, Memory, Name, capped_number, is_name, is_number, read_number};
use std::alloc::Global;

// How many digits the word begins with.
fn digits_in_front(word: &[u8]) -> usize
    ensures { result ≡ digits_in_front word.now }
{
    for (i, byte) in word.iter().enumerate() {
        if *byte < b'0' || *byte > b'9' {
            return i;
        }
    }
    word.len()
}

// The number that the digits spell, as far as the limit has it.
fn number_of(limit: Limit, digits: &[u8]) -> Option<u64>
    ensures { result ≡ number_of limit digits.now }
{
    match limit {
        Limit::Most(most) => match read_number(digits, most) {
            Ok(n) => Some(n),
            Err(_) => None,
        },
        Limit::Cap(most) => {
            if is_number(digits) {
                Some(u64::from(capped_number(digits, most)))
            } else {
                None
            }
        }
    }
}

// Whether the word begins with the text.
fn begins(text: &[u8], word: &[u8]) -> bool
    ensures { result ≡ reads.begins text.now word.now }
{
    text.len() <= word.len() && &word[..text.len()] == text
}

// The numbers of a word of these parts.
fn read_parts(alloc: Global, parts: &[Part], word: &[u8]) -> Result<Option<Numbers>, Memory>
    ensures { IfOk result (λ numbers. numbers ≡ read_parts [] (parts_of parts.now) word.now) }
{
    let mut numbers = Numbers::new(alloc);
    let mut rest = word;
    for part in parts {
        match *part {
            Part::Text(text) => {
                if !begins(text, rest) {
                    return Ok(None);
                }
                rest = &rest[text.len()..];
            }
            Part::Number(limit) => {
                let end = digits_in_front(rest);
                let Some(n) = number_of(limit, &rest[..end]) else {
                    return Ok(None);
                };
                numbers.push(n)?;
                rest = &rest[end..];
            }
        }
    }
    if rest.is_empty() {
        Ok(Some(numbers))
    } else {
        Ok(None)
    }
}

// The first of the ways that the word is.
fn read_ways(alloc: Global, ways: &[&[Part]], word: &[u8]) -> Result<Option<Given>, Memory>
    ensures { IfOk result (λ given. given ≡ read_ways 0 (ways_of ways.now) word.now) }
{
    for (way, parts) in ways.iter().enumerate() {
        if let Some(numbers) = read_parts(alloc, parts, word)? {
            return Ok(Some(Given::Way { way, numbers }));
        }
    }
    Ok(None)
}

/// What a word of the field says, or none where it is no such word.
pub fn read_word(alloc: Global, field: Field, word: &[u8]) -> Result<Option<Given>, Memory>
    ensures { IfOk result (λ given. given ≡ read_word (field_of field) word.now) }
{
    match field {
        Field::Name => {
            if is_name(word) {
                Ok(Some(Given::Name(Name::new(alloc, word)?)))
            } else {
                Ok(None)
            }
        }
        Field::OneOf(ways) => read_ways(alloc, ways, word),
    }
}

// Whether no word is of the field.
fn is_nothing(field: Field) -> bool
    ensures { result ≡ is_nothing (field_of field) }
{
    match field {
        Field::Name => false,
        Field::OneOf(ways) => ways.is_empty(),
    }
}

// Whether so many words may be a line of so many fields and the last one.
fn may_have(fields: usize, rest: Field, words: usize) -> bool
    ensures { result ≡ may_have fields (field_of rest) words }
{
    fields == words || (fields < words && !is_nothing(rest))
}

// Reads what the words of a line of this form say into the empty list, and answers whether they are of it. Only
// where there may be so many words and the first ones are of the form, memory is taken for those behind them, for
// just as many as there are. The list stays in use from form to form, so that no form that isn't the line's takes
// memory of its own.
fn read_fields(
    alloc: Global,
    said: &mut Vec<Given>,
    fields: &[Field],
    rest: Field,
    line: &[u8],
    count: usize,
) -> Result<bool, Memory>
    requires empty { said.old.items ≡ [] }
    requires counted { count ≡ length (words_of line.now) }
    ensures { IfOk result (λ all. some_if all said.new.items ≡ read_fields [] (fields_of fields.now) (field_of rest) (words_of line.now)) }
{
    if !may_have(fields.len(), rest, count) {
        return Ok(false);
    }
    let mut words = Words::new(line);
    for field in fields {
        let Some(word) = words.take_first() else {
            return Ok(false);
        };
        let Some(given) = read_word(alloc, *field, word)? else {
            return Ok(false);
        };
        said.push(given)?;
    }
    said.reserve_exact(words.count())?;
    while let Some(word) = words.take_first() {
        let Some(given) = read_word(alloc, rest, word)? else {
            return Ok(false);
        };
        said.push(given)?;
    }
    Ok(true)
}

/// What a line says, which comes without its line feed: the first form of the table that it is, and what each
/// of its words says; or none where it is of no form. Of a clear table it is of one form at most.
pub fn read_line(alloc: Global, table: &[Form], line: &[u8]) -> Result<Option<LineGiven>, Memory>
    ensures { IfOk result (λ given. given ≡ read_line (table_of table.now) line.now) }
{
    let count = Words::new(line).count();
    let mut said = Vec::new(alloc);
    for (number, form) in table.iter().enumerate() {
        said.clear();
        if read_fields(alloc, &mut said, form.fields, form.rest, line, count)? {
            return Ok(Some(LineGiven {
                form: number,
                words: Items::from_vec(said),
            }));
        }
    }
    Ok(None)
}
