ghost use Rattle.std.specs.Prelude.{◌≡◌, ◌<◌, ◌++◌, IfOk, OnOk, IsTrue, length, map, codes, unwrap_or, option_map};
ghost use Rattle.std.specs.Option.{option_to_list, ForSome};
ghost use Rattle.act1_bliftext.specs.Rules.{are_below, is_statement};
ghost use Rattle.act1_blifread.specs.Parts.{all_of, output_names};
ghost use Rattle.act1_blifread.specs.Faults.{IsWhole};
ghost use Rattle.act1_blifread.specs.Netlist.{IsNetlistOf, name_at};
ghost use Rattle.act1_blifread.specs.NetlistSteps.{are_within, AreSignals, latch_at, latches_at, node_at, nodes_at, number_at};

use crate::places::place_at;
use crate::signals::{Signals, data_inputs};
use act1_base::{Items, Memory, Name};
use act1_blif::{Blif, Latch, Node};
use act1_bliftext::{NumberedStatement, Statement, Statements};
use act1_logic::Cover;
use act1_order::rings_and_levels;
use std::alloc::Global;

// The number of a signal.
fn number_at(places: &[Option<u16>], name: u16) -> u16
    ensures { result ≡ number_at places.now name }
{
    place_at(places, name).unwrap_or(0)
}

// Adds the numbers of some signals.
fn add_numbers(out: &mut Vec<u16>, places: &[Option<u16>], names: &[u16]) -> Result<(), Memory>
    ensures { OnOk result (out.new.items ≡ out.old.items ++ map (number_at places.now) names.now) }
{
    for name in names {
        out.push(number_at(places, *name))?;
    }
    Ok(())
}

// The signals of the outputs, in their order.
fn outputs_of(
    alloc: Global,
    places: &[Option<u16>],
    statements: &[NumberedStatement],
) -> Result<Items<u16>, Memory>
    ensures { IfOk result (λ outputs. outputs ≡ map (number_at places.now) (all_of output_names statements.now)) }
{
    let mut outputs = Vec::new(alloc);
    for numbered in statements {
        if let Statement::Outputs(names) = &numbered.statement {
            add_numbers(&mut outputs, places, names.as_slice())?;
        }
    }
    Ok(Items::from_vec(outputs))
}

// A copy of the name of a number.
fn name_at(names: &[Name], name: u16) -> Result<Name, Memory>
    requires { name < length names.now }
    ensures { IfOk result (λ copy. copy ≡ name_at names.now name) }
{
    Ok(names[usize::from(name)].clone()?)
}

// Copies of the names of some numbers.
fn names_at(alloc: Global, names: &[Name], numbers: &[u16]) -> Result<Items<Name>, Memory>
    requires { IsTrue (are_below (length names.now) numbers.now) }
    ensures { IfOk result (λ copies. copies ≡ map (name_at names.now) numbers.now) }
{
    let mut copies = Items::new(alloc);
    for number in numbers {
        copies.push(name_at(names, *number)?)?;
    }
    Ok(copies)
}

// Adds the latch of a `.latch`.
fn add_latch(
    out: &mut Items<Latch>,
    names: &[Name],
    places: &[Option<u16>],
    statement: &Statement,
) -> Result<(), Memory>
    requires { IsTrue (is_statement (length names.now) statement.now) }
    ensures { OnOk result (out.new ≡ out.old ++ option_to_list (latch_at names.now places.now statement.now)) }
{
    if let Statement::Latch {
        input,
        output,
        init,
        ..
    } = statement
    {
        out.push(Latch {
            name: name_at(names, *output)?,
            input: number_at(places, *input),
            init: *init,
        })?;
    }
    Ok(())
}

// The latches, in their order.
fn latches_of(
    alloc: Global,
    names: &[Name],
    places: &[Option<u16>],
    statements: &[NumberedStatement],
) -> Result<Items<Latch>, Memory>
    requires { IsTrue (are_within (length names.now) statements.now) }
    ensures { IfOk result (λ latches. latches ≡ latches_at names.now places.now statements.now) }
{
    let mut latches = Items::new(alloc);
    for numbered in statements {
        add_latch(&mut latches, names, places, &numbered.statement)?;
    }
    Ok(latches)
}

// Puts the numbers of signals in the place of their names.
fn renumber(numbers: &mut Vec<u16>, places: &[Option<u16>])
    ensures { numbers.new.items ≡ map (number_at places.now) numbers.old.items }
{
    for number in numbers.iter_mut() {
        *number = number_at(places, *number);
    }
}

// The node of a `.names`, whose list of inputs it takes over.
fn node_of(
    names: &[Name],
    places: &[Option<u16>],
    inputs: Items<u16>,
    output: u16,
    cover: Cover,
) -> Result<Node, Memory>
    requires { output < length names.now }
    ensures { IfOk result (λ node. node ≡ record { name = name_at names.now output; inputs = map (number_at places.now) inputs; cover = cover }) }
{
    let mut numbers = inputs.into_vec();
    renumber(&mut numbers, places);
    Ok(Node {
        name: name_at(names, output)?,
        inputs: Items::from_vec(numbers),
        cover,
    })
}

// Adds the node of a `.names`.
fn add_node(
    out: &mut Items<Node>,
    names: &[Name],
    places: &[Option<u16>],
    statement: Statement,
) -> Result<(), Memory>
    requires { IsTrue (is_statement (length names.now) statement) }
    ensures { OnOk result (out.new ≡ out.old ++ option_to_list (node_at names.now places.now statement)) }
{
    match statement {
        Statement::Names {
            inputs,
            output,
            cover,
        } => out.push(node_of(names, places, inputs, output, cover)?),
        Statement::Inputs(_names) => Ok(()),
        Statement::Outputs(_names) => Ok(()),
        Statement::Clock(_names) => Ok(()),
        Statement::Latch { .. } => Ok(()),
    }
}

// The nodes, in their order, with the covers of the statements.
fn nodes_of(
    alloc: Global,
    names: &[Name],
    places: &[Option<u16>],
    statements: Items<NumberedStatement>,
) -> Result<Items<Node>, Memory>
    requires { IsTrue (are_within (length names.now) statements) }
    ensures { IfOk result (λ nodes. nodes ≡ nodes_at names.now places.now statements) }
{
    let mut nodes = Items::new(alloc);
    for numbered in statements.into_vec() {
        add_node(&mut nodes, names, places, numbered.statement)?;
    }
    Ok(nodes)
}

// A copy of the clock's name, if there is one.
fn clock_name(names: &[Name], clock: Option<u16>) -> Result<Option<Name>, Memory>
    requires { ForSome clock (λ n. n < length names.now) }
    ensures { IfOk result (λ name. name ≡ option_map (name_at names.now) clock) }
{
    match clock {
        Some(clock) => Ok(Some(name_at(names, clock)?)),
        None => Ok(None),
    }
}

// The model's name, or `top`.
fn model_name(alloc: Global, model: Option<Name>) -> Result<Name, Memory>
    ensures { IfOk result (λ name. name ≡ unwrap_or model (codes "top")) }
{
    match model {
        Some(model) => Ok(model),
        None => Name::new(alloc, b"top"),
    }
}

/// The netlist of statements that have no fault of the whole, by the clock and the places of the
/// signals.
pub fn build_netlist(
    alloc: Global,
    statements: Statements,
    signals: &Signals,
) -> Result<Blif, Memory>
    requires whole { IsWhole statements.statements }
    requires signals { AreSignals statements signals.now.clock signals.now.places.items }
    ensures { IfOk result (IsNetlistOf statements) }
{
    rings_and_levels();
    let Statements {
        model,
        names: all_names,
        statements,
    } = statements;
    let names = all_names.as_slice();
    let places = signals.places.as_slice();
    let data = data_inputs(alloc, signals.clock, statements.as_slice())?;
    let inputs = names_at(alloc, names, data.as_slice())?;
    let latches = latches_of(alloc, names, places, statements.as_slice())?;
    let outputs = outputs_of(alloc, places, statements.as_slice())?;
    let nodes = nodes_of(alloc, names, places, statements)?;
    Ok(Blif {
        model: model_name(alloc, model)?,
        clock: clock_name(names, signals.clock)?,
        inputs,
        latches,
        nodes,
        outputs,
    })
}
