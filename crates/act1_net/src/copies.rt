ghost use Rattle.std.specs.Prelude.{◌≡◌, IfOk};

use act1_base::{Items, Memory, Name, copy_of_name};
use act1_blif::{Blif, Latch, Node};
use act1_logic::{Cover, Marks, Row};
use std::alloc::Global;

/// A copy of a name.
pub fn copy_of(name: &Name) -> Result<Name, Memory>
    ensures { IfOk result (λ copy. copy ≡ name.now) }
{
    Ok(name.clone()?)
}

/// A copy of some names.
pub fn copy_of_names(alloc: Global, names: &[Name]) -> Result<Items<Name>, Memory>
    ensures { IfOk result (λ copy. copy ≡ names.now) }
{
    let mut copy = Items::new(alloc);
    for name in names {
        copy.push(name.clone()?)?;
    }
    Ok(copy)
}

// A copy of some rows.
fn copy_of_rows(alloc: Global, rows: &[Row]) -> Result<Items<Row>, Memory>
    ensures { IfOk result (λ copy. copy ≡ rows.now) }
{
    let mut copy = Items::new(alloc);
    for row in rows {
        copy.push(Row {
            marks: Marks::from_slice(alloc, row.marks.as_slice())?,
        })?;
    }
    Ok(copy)
}

// A copy of a node.
fn copy_of_node(alloc: Global, node: &Node) -> Result<Node, Memory>
    ensures { IfOk result (λ copy. copy ≡ node.now) }
{
    let name = copy_of(&node.name)?;
    let inputs = Items::from_slice(alloc, node.inputs.as_slice())?;
    let rows = copy_of_rows(alloc, node.cover.rows.as_slice())?;
    Ok(Node {
        name,
        inputs,
        cover: Cover {
            width: node.cover.width,
            output: node.cover.output,
            rows,
        },
    })
}

// A copy of some nodes.
fn copy_of_nodes(alloc: Global, nodes: &[Node]) -> Result<Items<Node>, Memory>
    ensures { IfOk result (λ copy. copy ≡ nodes.now) }
{
    let mut copy = Items::new(alloc);
    for node in nodes {
        copy.push(copy_of_node(alloc, node)?)?;
    }
    Ok(copy)
}

// A copy of some latches.
fn copy_of_latches(alloc: Global, latches: &[Latch]) -> Result<Items<Latch>, Memory>
    ensures { IfOk result (λ copy. copy ≡ latches.now) }
{
    let mut copy = Items::new(alloc);
    for latch in latches {
        copy.push(Latch {
            name: copy_of(&latch.name)?,
            input: latch.input,
            init: latch.init,
        })?;
    }
    Ok(copy)
}

/// A copy of a netlist.
pub fn copy_of_blif(alloc: Global, blif: &Blif) -> Result<Blif, Memory>
    ensures { IfOk result (λ copy. copy ≡ blif.now) }
{
    let model = copy_of(&blif.model)?;
    let clock = copy_of_name(&blif.clock)?;
    let inputs = copy_of_names(alloc, blif.inputs.as_slice())?;
    let latches = copy_of_latches(alloc, blif.latches.as_slice())?;
    let nodes = copy_of_nodes(alloc, blif.nodes.as_slice())?;
    let outputs = Items::from_slice(alloc, blif.outputs.as_slice())?;
    Ok(Blif {
        model,
        clock,
        inputs,
        latches,
        nodes,
        outputs,
    })
}
