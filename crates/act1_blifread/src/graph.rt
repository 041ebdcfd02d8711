ghost use Rattle.std.specs.Prelude.{◌≡◌, ◌≤◌, ◌++◌, IfOk, OnOk, IsTrue, length};
ghost use Rattle.std.specs.List.{filter_map};
ghost use Rattle.std.specs.Option.{option_to_list};
ghost use Rattle.act1_blifread.specs.Parts.{all_of, node_names};
ghost use Rattle.act1_blifread.specs.Faults.{is_node, node_graph};
ghost use Rattle.act1_blifread.specs.NetlistSteps.{are_within, place_at, reads_in, IsFirstLine, IsNodeLine};

use crate::places::{place_at, places_of};
use crate::signals::add_nodes;
use act1_base::{Items, Memory};
use act1_bliftext::{BlifKind, NumberedStatement, Statement};
use act1_order::{Ordering, rings_and_levels, sources_first};
use std::alloc::Global;

// Adds a place, if there is one.
fn add_place(out: &mut Vec<u16>, place: Option<u16>) -> Result<(), Memory>
    ensures { OnOk result (out.new.items ≡ out.old.items ++ option_to_list place) }
{
    if let Some(place) = place {
        out.push(place)?;
    }
    Ok(())
}

// The places of those names that have one.
fn places_among(alloc: Global, places: &[Option<u16>], names: &[u16]) -> Result<Items<u16>, Memory>
    ensures { IfOk result (λ reads. reads ≡ filter_map (place_at places.now) names.now) }
{
    let mut reads = Vec::with_capacity(alloc, names.len())?;
    for name in names {
        add_place(&mut reads, place_at(places, *name))?;
    }
    Ok(Items::from_vec(reads))
}

// Adds the places of those inputs of a `.names` that have one.
fn add_reads(
    alloc: Global,
    graph: &mut Vec<Items<u16>>,
    places: &[Option<u16>],
    statement: &Statement,
) -> Result<(), Memory>
    ensures { OnOk result (graph.new.items ≡ graph.old.items ++ option_to_list (reads_in places.now statement.now)) }
{
    if let Statement::Names { inputs, .. } = statement {
        graph.push(places_among(alloc, places, inputs.as_slice())?)?;
    }
    Ok(())
}

// For each `.names`, in their order, the places of those of its inputs that have one.
fn reads_of(
    alloc: Global,
    places: &[Option<u16>],
    statements: &[NumberedStatement],
) -> Result<Vec<Items<u16>>, Memory>
    ensures { IfOk result (λ graph. graph.items ≡ filter_map (λ numbered. reads_in places.now numbered.statement) statements.now) }
{
    let mut graph = Vec::new(alloc);
    for numbered in statements {
        add_reads(alloc, &mut graph, places, &numbered.statement)?;
    }
    Ok(graph)
}

// Whether a statement is a `.names`.
fn is_node(statement: &Statement) -> bool
    ensures { result ≡ is_node statement.now }
{
    matches!(statement, Statement::Names { .. })
}

// The line of the `.names` of a number.
fn node_line(statements: &[NumberedStatement], node: u16) -> Option<u32>
    ensures { IsNodeLine statements.now node result }
{
    let mut left = node;
    for numbered in statements {
        if is_node(&numbered.statement) {
            if left == 0 {
                return Some(numbered.line);
            }
            left -= 1;
        }
    }
    None
}

// The graph of the `.names`: for each, in their order, those that it reads.
fn node_graph(
    alloc: Global,
    count: usize,
    statements: &[NumberedStatement],
) -> Result<Vec<Items<u16>>, Memory>
    requires within { IsTrue (are_within count statements.now) }
    requires few { length (all_of node_names statements.now) ≤ 65535 }
    ensures { IfOk result (λ graph. graph.items ≡ node_graph statements.now) }
{
    let mut outputs = Vec::new(alloc);
    add_nodes(&mut outputs, statements)?;
    let places = places_of(alloc, count, outputs.as_slice())?;
    reads_of(alloc, places.as_slice(), statements)
}

/// The line of the first `.names` that depends on itself through `.names` alone.
pub fn loop_line(
    alloc: Global,
    count: usize,
    statements: &[NumberedStatement],
) -> Result<Option<u32>, Memory>
    requires within { IsTrue (are_within count statements.now) }
    requires few { length (all_of node_names statements.now) ≤ 65535 }
    ensures { IfOk result (IsFirstLine statements.now BlifKind.Loop) }
{
    rings_and_levels();
    let graph = node_graph(alloc, count, statements)?;
    match sources_first(alloc, graph.as_slice())? {
        Ordering::Order(_) => Ok(None),
        Ordering::Ring(node) => Ok(node_line(statements, node)),
    }
}
