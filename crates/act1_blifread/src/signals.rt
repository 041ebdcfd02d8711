ghost use Rattle.std.specs.Prelude.{◌≡◌, ◌++◌, ◌||◌, not, filter, is_some, OnOk, IfOk};
ghost use Rattle.std.specs.List.{list_any};
ghost use Rattle.act1_blifread.specs.Parts.{all_of, data_inputs, input_names, is_clock, latch_names, node_names, signals_of, clock_of, used_names};
ghost use Rattle.act1_blifread.specs.NetlistSteps.{first_line, is_without_place, place_at};

use crate::clocks::is_clock;
use crate::places::place_at;
use act1_base::Memory;
use act1_bliftext::{NumberedStatement, Statement};
use std::alloc::Global;

/// The clock, and for each name its place among the signals, if it is one.
#[derive(Debug, Drop)]
pub struct Signals {
    /// The clock, if there is one.
    pub clock: Option<u16>,
    /// For each name its signal number.
    pub places: Vec<Option<u16>>,
}

// Adds the names that aren't the clock's.
fn add_data(out: &mut Vec<u16>, clock: Option<u16>, names: &[u16]) -> Result<(), Memory>
    ensures { OnOk result (out.new.items ≡ out.old.items ++ filter (λ n. not (is_clock clock n)) names.now) }
{
    for name in names {
        if !is_clock(clock, *name) {
            out.push(*name)?;
        }
    }
    Ok(())
}

/// The inputs but for the clock, in their order.
pub fn data_inputs(
    alloc: Global,
    clock: Option<u16>,
    statements: &[NumberedStatement],
) -> Result<Vec<u16>, Memory>
    ensures { IfOk result (λ names. names.items ≡ filter (λ n. not (is_clock clock n)) (all_of input_names statements.now)) }
{
    let mut names = Vec::new(alloc);
    for numbered in statements {
        if let Statement::Inputs(inputs) = &numbered.statement {
            add_data(&mut names, clock, inputs.as_slice())?;
        }
    }
    Ok(names)
}

/// Adds the outputs of the latches.
pub fn add_latches(out: &mut Vec<u16>, statements: &[NumberedStatement]) -> Result<(), Memory>
    ensures { OnOk result (out.new.items ≡ out.old.items ++ all_of latch_names statements.now) }
{
    for numbered in statements {
        if let Statement::Latch { output, .. } = &numbered.statement {
            out.push(*output)?;
        }
    }
    Ok(())
}

/// Adds the outputs of the `.names`.
pub fn add_nodes(out: &mut Vec<u16>, statements: &[NumberedStatement]) -> Result<(), Memory>
    ensures { OnOk result (out.new.items ≡ out.old.items ++ all_of node_names statements.now) }
{
    for numbered in statements {
        if let Statement::Names { output, .. } = &numbered.statement {
            out.push(*output)?;
        }
    }
    Ok(())
}

/// The names of the signals in the order of their numbers: inputs, latches, nodes.
pub fn signals_of(
    alloc: Global,
    clock: Option<u16>,
    statements: &[NumberedStatement],
) -> Result<Vec<u16>, Memory>
    requires { clock ≡ clock_of statements.now }
    ensures { IfOk result (λ names. names.items ≡ signals_of statements.now) }
{
    let mut names = data_inputs(alloc, clock, statements)?;
    add_latches(&mut names, statements)?;
    add_nodes(&mut names, statements)?;
    Ok(names)
}

// Whether a name has no place among the signals and isn't the clock's.
fn is_without_place(clock: Option<u16>, places: &[Option<u16>], name: u16) -> bool
    ensures { result ≡ is_without_place clock places.now name }
{
    place_at(places, name).is_none() && !is_clock(clock, name)
}

// Whether one of the names has none.
fn has_without_place(clock: Option<u16>, places: &[Option<u16>], names: &[u16]) -> bool
    ensures { result ≡ list_any (is_without_place clock places.now) names.now }
{
    names.iter().any(|n| is_without_place(clock, places, *n))
}

// Whether a statement uses such a name.
fn uses_without_place(clock: Option<u16>, places: &[Option<u16>], statement: &Statement) -> bool
    ensures { result ≡ list_any (is_without_place clock places.now) (used_names statement.now) }
{
    match statement {
        Statement::Outputs(names) => has_without_place(clock, places, names.as_slice()),
        Statement::Names { inputs, .. } => has_without_place(clock, places, inputs.as_slice()),
        Statement::Latch { input, .. } => is_without_place(clock, places, *input),
        _ => false,
    }
}

/// The line of the first statement that uses a name that is no signal and not the clock's.
pub fn undriven_line(
    clock: Option<u16>,
    places: &[Option<u16>],
    statements: &[NumberedStatement],
) -> Option<u32>
    ensures { result ≡ first_line (λ statement. list_any (is_without_place clock places.now) (used_names statement)) statements.now }
{
    statements
        .iter()
        .find(|numbered| uses_without_place(clock, places, &numbered.statement))
        .map(|numbered| numbered.line)
}
