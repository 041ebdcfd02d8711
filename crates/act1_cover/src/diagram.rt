ghost use Rattle.std.specs.Prelude.{◌≡◌, ◌<◌, ◌+◌, IfOk, length, take};
ghost use Rattle.act1_dd.specs.Diagram.{IsRef, size_of};
ghost use Rattle.act1_dd.specs.Limit.{IsDiagramOf};
ghost use Rattle.act1_cover.specs.Denotes.{diagram_of};
ghost use Rattle.act1_cover.specs.Forests.{IsForestOf};

use crate::forest::Forest;
use crate::numbering::forest_in;
use act1_base::{Items, Memory};
use act1_dd::{Branch, Diagrams, Ref};
use act1_logic::Cover;
use std::alloc::Global;

// The forks before and with this one.
fn up_to(alloc: Global, diagrams: &Diagrams, node: usize) -> Result<Items<Branch>, Memory>
    requires { node < length diagrams.now }
    ensures { IfOk result (λ branches. branches ≡ take (node + 1) diagrams.now) }
{
    let mut branches = Items::new(alloc);
    for older in 0..node {
        branches.push(diagrams.branch(older))?;
    }
    branches.push(diagrams.branch(node))?;
    Ok(branches)
}

// The forks under a ref, and others that are older than it.
fn listed(alloc: Global, diagrams: &Diagrams, root: Ref) -> Result<Items<Branch>, Memory>
    requires { IsRef diagrams.now root }
    ensures { IfOk result (λ branches. branches ≡ take (size_of root) diagrams.now) }
{
    match root {
        Ref::Zero => Ok(Items::new(alloc)),
        Ref::One => Ok(Items::new(alloc)),
        Ref::Node(node) => up_to(alloc, diagrams, node),
    }
}

/// The forest of a cover's reduced ordered diagram.
pub fn forest_of_diagram(
    alloc: Global,
    cover: &Cover,
    diagrams: &Diagrams,
    root: Ref,
) -> Result<Forest, Memory>
    requires { IsDiagramOf cover.now diagrams.now root }
    ensures { IfOk result (IsForestOf (diagram_of cover.now)) }
{
    let _ = cover;
    diagrams.are_reduced();
    diagrams.parts_are_within();
    let branches = listed(alloc, diagrams, root)?;
    forest_in(alloc, branches.as_slice(), root)
}
