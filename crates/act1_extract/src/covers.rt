ghost use Rattle.std.specs.Prelude.{◌≡◌, ◌≤◌, ◌∷◌, [], ◌++◌, Bool, List, false, filter, length, map, true, if◌then◌else◌, IfOk, OnOk, IsTrue};
ghost use Rattle.act1_logic.specs.OnSets.{IsOnSet, combinations, mark_of};
ghost use Rattle.act1_logic.specs.Rows.{is_cover};
ghost use Rattle.act1_logic.specs.declared.cover.Row.{Row};
ghost use Rattle.act1_meaning.specs.Extracted.{different, first_bit, module_in};
ghost use Rattle.act1_extract.specs.Parts.{constant_of, marks_in};

use crate::values::module_in;
use act1_base::{Items, Memory};
use act1_circuit::Source;
use act1_logic::{Cover, Mark, Marks, Row};
use std::alloc::Global;

// Bits with another in front.
fn with_bit(alloc: Global, bit: bool, bits: &[bool]) -> Result<Items<bool>, Memory>
    ensures { IfOk result (λ all. all ≡ bit ∷ bits.now) }
{
    let mut all = Vec::new(alloc);
    all.push(bit)?;
    all.extend_from_slice(bits)?;
    Ok(Items::from_vec(all))
}

// Adds lists of bits, each with another bit in front.
fn add_with_bit(
    alloc: Global,
    out: &mut Items<Items<bool>>,
    bit: bool,
    all: &[Items<bool>],
) -> Result<(), Memory>
    ensures { OnOk result (out.new ≡ out.old ++ map (λ (ys : List Bool). bit ∷ ys) all.now) }
{
    for bits in all {
        out.push(with_bit(alloc, bit, bits.as_slice())?)?;
    }
    Ok(())
}

// The combinations of one bit more: first those with 0 in front.
fn more_combinations(alloc: Global, all: &[Items<bool>]) -> Result<Items<Items<bool>>, Memory>
    ensures { IfOk result (λ more. more ≡ map (λ (ys : List Bool). false ∷ ys) all.now ++ map (λ (ys : List Bool). true ∷ ys) all.now) }
{
    let mut more = Items::new(alloc);
    add_with_bit(alloc, &mut more, false, all)?;
    add_with_bit(alloc, &mut more, true, all)?;
    Ok(more)
}

// All lists of so many bits, rising as binary numbers with the first bit as the highest.
fn combinations(alloc: Global, width: usize) -> Result<Items<Items<bool>>, Memory>
    ensures { IfOk result (λ all. all ≡ combinations width) }
{
    let mut all = Items::new(alloc);
    all.push(Items::new(alloc))?;
    for _count in 0..width {
        all = more_combinations(alloc, all.as_slice())?;
    }
    Ok(all)
}

// The mark that agrees with this bit alone.
fn mark_of(bit: bool) -> Mark
    ensures { result ≡ mark_of bit }
{
    if bit { Mark::One } else { Mark::Zero }
}

// The row that agrees with these bits alone.
fn row_of(alloc: Global, bits: &[bool]) -> Result<Row, Memory>
    ensures { IfOk result (λ row. row.marks ≡ map mark_of bits.now) }
{
    let mut marks = Marks::new(alloc);
    for bit in bits {
        marks.push(mark_of(*bit))?;
    }
    Ok(Row { marks })
}

// Adds the row of these bits, if the module gives 1 at them.
fn add_row(
    alloc: Global,
    rows: &mut Items<Row>,
    pins: [Source; 8],
    sources: &[Source],
    bits: &[bool],
) -> Result<(), Memory>
    requires sources { sources.now ≡ different pins }
    requires bits { length bits.now ≡ length sources.now }
    ensures { OnOk result (marks_in rows.new ≡ marks_in rows.old ++ (if module_in pins bits.now then map mark_of bits.now ∷ [] else [])) }
{
    if module_in(pins, sources, bits) {
        rows.push(row_of(alloc, bits)?)?;
    }
    Ok(())
}

// The rows of those combinations at which the module gives 1.
#[tactic(auto, using(crate::proofs::Steps::kept_more, crate::proofs::OnRows::read_long))]
fn rows_of(
    alloc: Global,
    pins: [Source; 8],
    sources: &[Source],
    all: &[Items<bool>],
) -> Result<Items<Row>, Memory>
    requires sources { sources.now ≡ different pins }
    requires all { all.now ≡ combinations (length sources.now) }
    ensures { IfOk result (λ rows. marks_in rows ≡ map (map mark_of) (filter (module_in pins) all.now)) }
{
    let mut rows = Items::new(alloc);
    for bits in all {
        add_row(alloc, &mut rows, pins, sources, bits.as_slice())?;
    }
    Ok(rows)
}

// The cover of some rows with the output 1.
fn on_cover(width: u8, rows: Items<Row>) -> Cover
    requires { IsTrue (is_cover width true rows) }
    ensures width { result.width ≡ width }
    ensures output { result.output ≡ true }
    ensures rows { result.rows ≡ rows }
{
    Cover {
        width,
        output: true,
        rows,
    }
}

/// The function of a module's different sources, with one row for each combination of value 1.
#[tactic(auto, using(crate::proofs::OnRows::on_rows, crate::proofs::OnRows::different_few))]
pub fn module_cover(alloc: Global, pins: [Source; 8], sources: &[Source]) -> Result<Cover, Memory>
    requires { sources.now ≡ different pins }
    ensures { IfOk result (λ cover. IsOnSet (length sources.now) (module_in pins) cover × (cover.width ≡ length sources.now)) }
{
    let all = combinations(alloc, sources.len())?;
    let rows = rows_of(alloc, pins, sources, all.as_slice())?;
    Ok(on_cover(sources.len() as u8, rows))
}

/// A constant of no inputs.
pub fn constant_cover(alloc: Global, value: bool) -> Result<Cover, Memory>
    ensures { IfOk result (λ cover. IsOnSet 0 (constant_of value) cover × (cover.width ≡ 0)) }
{
    let mut rows = Items::new(alloc);
    if value {
        rows.push(row_of(alloc, &[])?)?;
    }
    Ok(on_cover(0, rows))
}

/// The function of one input that is the input.
pub fn copy_cover(alloc: Global) -> Result<Cover, Memory>
    ensures { IfOk result (λ cover. IsOnSet 1 first_bit cover × (cover.width ≡ 1)) }
{
    let mut rows = Items::new(alloc);
    rows.push(row_of(alloc, &[true])?)?;
    Ok(on_cover(1, rows))
}
