ghost use Rattle.std.specs.Prelude.{◌≡◌, ◌+◌, ◌++◌, ◌∷◌, [], ◌<◌, ◌≤◌, ◌^◌, length, map, IfOk};
ghost use Rattle.std.specs.List.{list_all};
ghost use Rattle.act1_bliftext.specs.Rows.{is_mark, mark_of, is_value, is_one, are_parts, differ};
ghost use Rattle.act1_bliftext.specs.ReadingSteps.{RowGives, PartsGive, HasRow, mark_count, mixes};

use crate::fault::BlifKind;
use crate::forms::is;
use crate::open_names::OpenNames;
use act1_base::{Items, Memory, Stop};
use act1_logic::{Mark, Marks, Row};
use std::alloc::Global;

// Whether each byte is a mark.
fn are_marks(word: &[u8]) -> bool
    ensures { result ≡ list_all is_mark word.now }
{
    word.iter().all(|b| *b == b'0' || *b == b'1' || *b == b'-')
}

// The mark that a byte is.
fn mark_of(b: u8) -> Mark
    ensures { result ≡ mark_of b }
{
    if b == b'0' {
        Mark::Zero
    } else if b == b'1' {
        Mark::One
    } else {
        Mark::Dash
    }
}

// The marks of a word.
fn marks_of(alloc: Global, word: &[u8]) -> Result<Marks, Memory>
    requires { length word.now ≤ 64 }
    ensures { IfOk result (λ marks. marks ≡ map mark_of word.now) }
{
    let mut marks = [Mark::Dash; 64];
    for (place, b) in word.iter().enumerate() {
        marks[place] = mark_of(*b);
    }
    Marks::from_slice(alloc, &marks[..word.len()])
}

// Whether a word is an output character.
fn is_value(word: &[u8]) -> bool
    ensures { result ≡ is_value word.now }
{
    is(word, b"0") || is(word, b"1")
}

// Whether an output character is 1.
fn is_one(word: &[u8]) -> bool
    ensures { result ≡ is_one word.now }
{
    is(word, b"1")
}

// Whether these are marks for this many inputs and an output character.
fn are_parts(width: usize, marks: &[u8], value: &[u8]) -> bool
    ensures { result ≡ are_parts width marks.now value.now }
{
    marks.len() == width && are_marks(marks) && is_value(value)
}

// Whether the two differ.
fn differ(a: bool, b: bool) -> bool
    ensures { result ≡ differ a b }
{
    if a { !b } else { b }
}

// Whether a row has another output character than the rows before it.
fn mixes(rows: &Items<Row>, value: bool, more: bool) -> bool
    ensures { result ≡ mixes rows.now value more }
{
    match rows.as_slice() {
        [] => false,
        [_, ..] => differ(value, more),
    }
}

// The rows and one more. Many a `.names` has a single row, so the first takes no room for others.
fn one_row_more(rows: Items<Row>, row: Row) -> Result<Items<Row>, Memory>
    ensures { IfOk result (λ more. more ≡ rows ++ row ∷ []) }
{
    let mut rows = rows.into_vec();
    if rows.is_empty() {
        rows.reserve_exact(1)?;
    }
    rows.push(row)?;
    Ok(Items::from_vec(rows))
}

// The `.names` with one row more.
fn with_row(names: OpenNames, row: Row, more: bool) -> Result<OpenNames, Memory>
    requires marks { length row.marks ≡ length names.inputs }
    requires few { mark_count names.rows + length row.marks < 2 ^ 32 }
    ensures { IfOk result (HasRow names row.marks more) }
{
    let OpenNames {
        line,
        inputs,
        output,
        value,
        rows,
        ..
    } = names;
    let value = if rows.is_empty() { more } else { value };
    Ok(OpenNames {
        line,
        inputs,
        output,
        value,
        rows: one_row_more(rows, row)?,
    })
}

// The `.names` with the row that these parts make.
fn with_parts(
    alloc: Global,
    names: OpenNames,
    marks: &[u8],
    value: &[u8],
) -> Result<OpenNames, Stop<BlifKind>>
    requires { mark_count names.rows + length marks.now < 2 ^ 32 }
    ensures { PartsGive names marks.now value.now result }
{
    if !are_parts(names.inputs.len(), marks, value) {
        return Err(Stop::Fault(BlifKind::Row));
    }
    let more = is_one(value);
    if mixes(&names.rows, names.value, more) {
        return Err(Stop::Fault(BlifKind::Mixed));
    }
    let row = Row {
        marks: marks_of(alloc, marks)?,
    };
    Ok(with_row(names, row, more)?)
}

/// The `.names` with the row that these words make.
pub fn row_under(
    alloc: Global,
    names: OpenNames,
    first: &[u8],
    rest: &[&[u8]],
) -> Result<OpenNames, Stop<BlifKind>>
    requires { mark_count names.rows + length first.now < 2 ^ 32 }
    ensures { RowGives names first.now (map (λ w. w.now) rest.now) result }
{
    match rest {
        [] => with_parts(alloc, names, &[], first),
        [value] => with_parts(alloc, names, first, value),
        _ => Err(Stop::Fault(BlifKind::Row)),
    }
}
