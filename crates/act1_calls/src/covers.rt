ghost use Rattle.std.specs.Prelude.{◌≡◌, ◌≤◌};
ghost use Rattle.act1_dd.specs.Diagram.{IsRef, IsWithin};

use crate::input::{add_bit, inputs_of, netlist_of, number, vectors_of};
use act1_blif::Blif;
use act1_dd::{DdFault, Diagrams, Ref};
use act1_logic::{Cover, Table, cover_value, module_value};
use act1_match::{PinChoice, match_module};
use std::alloc::Global;
use std::fmt::Write;
use std::rt::Files;

/// The limit of forks of a row that has none.
pub const MOST_FORKS: usize = 10_000;

/// The first cover of a netlist.
pub fn cover_of(netlist: &Blif) -> Option<&Cover> {
    Some(&netlist.nodes.get(0)?.cover)
}

// The value of a cover at the inputs that a number gives.
fn cover_at(alloc: Global, cover: &Cover, number: u64) -> Option<bool>
    requires { cover.now.width ≤ 6 }
{
    let inputs = inputs_of(alloc, number, cover.width)?;
    Some(cover_value(cover, &inputs))
}

// The values of a cover at all inputs, as a table.
fn table_of(alloc: Global, cover: &Cover) -> Option<u64>
    requires { cover.now.width ≤ 6 }
{
    let mut table = 0u64;
    for number in 0..vectors_of(cover.width) {
        if cover_at(alloc, cover, number)? {
            table |= 1 << number;
        }
    }
    Some(table)
}

// Adds the bits of a table with so many variables, the first as its lowest.
fn add_table(text: &mut String, table: u64, width: u8) -> Option<()>
    requires { width ≤ 6 }
{
    for number in 0..vectors_of(width) {
        add_bit(text, (table >> number) & 1 == 1)?;
    }
    text.push('\n').ok()
}

// The value of a diagram at the inputs that a number gives.
fn diagram_at(alloc: Global, diagrams: &Diagrams, f: Ref, number: u64, width: u8) -> Option<bool>
    requires few { width ≤ 6 }
    requires f { IsRef diagrams.now f }
    requires within { IsWithin diagrams.now f width }
{
    let inputs = inputs_of(alloc, number, width)?;
    Some(diagrams.value(f, &inputs))
}

// Adds the values of a diagram at all inputs.
fn add_diagram(
    text: &mut String,
    alloc: Global,
    diagrams: &Diagrams,
    f: Ref,
    width: u8,
) -> Option<()>
    requires few { width ≤ 6 }
    requires f { IsRef diagrams.now f }
    requires within { IsWithin diagrams.now f width }
{
    for number in 0..vectors_of(width) {
        add_bit(text, diagram_at(alloc, diagrams, f, number, width)?)?;
    }
    text.push('\n').ok()
}

// Adds the values of a cover at all inputs by its diagram.
fn add_by_diagram(text: &mut String, alloc: Global, cover: &Cover) -> Option<()>
    requires { cover.now.width ≤ 6 }
{
    let mut diagrams = Diagrams::new(alloc);
    let f = diagrams.from_cover(cover, MOST_FORKS).ok()?;
    add_diagram(text, alloc, &diagrams, f, cover.width)
}

// What a pin has at the inputs that a number gives.
fn value_at(choice: PinChoice, number: u64) -> bool {
    match choice {
        PinChoice::Zero => false,
        PinChoice::One => true,
        PinChoice::Var(variable) => variable < 6 && (number >> variable) & 1 == 1,
    }
}

// What the module gives by its pins at the inputs that a number gives.
fn module_at(pins: [PinChoice; 8], number: u64) -> bool {
    let [a0, a1, sa, b0, b1, sb, s0, s1] = pins;
    module_value([
        value_at(a0, number),
        value_at(a1, number),
        value_at(sa, number),
        value_at(b0, number),
        value_at(b1, number),
        value_at(sb, number),
        value_at(s0, number),
        value_at(s1, number),
    ])
}

// Adds the values at all inputs of the module that is a table, if there is one.
fn add_by_module(text: &mut String, table: u64, width: u8) -> Option<()>
    requires { width ≤ 6 }
{
    let Some(pins) = match_module(Table(table), width) else {
        return text.push_str("no module\n").ok();
    };
    for number in 0..vectors_of(width) {
        add_bit(text, module_at(pins, number))?;
    }
    text.push('\n').ok()
}

// Adds the values of a cover, by its rows, by its diagram and by one module.
fn add_cover(alloc: Global, cover: &Cover, text: &mut String) -> Option<()> {
    if cover.width > 6 {
        return None;
    }
    let table = table_of(alloc, cover)?;
    add_table(text, table, cover.width)?;
    add_by_diagram(text, alloc, cover)?;
    add_by_module(text, table, cover.width)
}

/// The row `table BLIF`.
pub fn table_row<R: Files>(rt: &R, alloc: Global, words: &[&str], text: &mut String) -> Option<()> {
    let [blif] = words else {
        return None;
    };
    let netlist = netlist_of(rt, alloc, blif)?;
    add_cover(alloc, cover_of(&netlist)?, text)
}

// The first rows of a cover whose diagram has more forks than the limit: none, or `None` where there was no
// memory.
fn rows_past(alloc: Global, cover: &Cover, limit: usize) -> Option<Option<usize>> {
    let mut diagrams = Diagrams::new(alloc);
    match diagrams.from_cover(cover, limit) {
        Ok(_) => Some(None),
        Err(DdFault::Limit { rows }) => Some(Some(rows)),
        Err(DdFault::Memory) => None,
    }
}

// Adds whether the diagram of a cover is within the limit.
fn add_limit(alloc: Global, cover: &Cover, limit: usize, text: &mut String) -> Option<()> {
    match rows_past(alloc, cover, limit)? {
        Some(rows) => writeln!(text, "{rows} rows").ok(),
        None => text.push_str("within\n").ok(),
    }
}

/// The row `limit BLIF N`.
pub fn limit_row<R: Files>(rt: &R, alloc: Global, words: &[&str], text: &mut String) -> Option<()> {
    let [blif, limit] = words else {
        return None;
    };
    let limit = number(limit)? as usize;
    let netlist = netlist_of(rt, alloc, blif)?;
    add_limit(alloc, cover_of(&netlist)?, limit, text)
}

// How many of so many diagrams of a cover, each with forks of its own, have at most so many forks.
fn count_within(alloc: Global, cover: &Cover, limit: usize, count: u64) -> usize {
    (0..count)
        .filter(|_| rows_past(alloc, cover, limit) == Some(None))
        .count()
}

/// The row `diagrams BLIF N COUNT`.
pub fn count_row<R: Files>(rt: &R, alloc: Global, words: &[&str], text: &mut String) -> Option<()> {
    let [blif, limit, count] = words else {
        return None;
    };
    let (limit, count) = (number(limit)? as usize, number(count)?);
    let netlist = netlist_of(rt, alloc, blif)?;
    let within = count_within(alloc, cover_of(&netlist)?, limit, count);
    writeln!(text, "{within}").ok()
}
