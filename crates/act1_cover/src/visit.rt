ghost use Rattle.std.specs.Prelude.{◌≡◌, ◌<◌, IfOk, OnOk, length};
ghost use Rattle.act1_dd.specs.Diagram.{IsRef};
ghost use Rattle.act1_dd.specs.declared.refs.Ref.TheVariants as ref;
ghost use Rattle.act1_cover.specs.Stores.{IsStore, branch_at, is_input};
ghost use Rattle.act1_cover.specs.Visiting.{AreVisited, found_after, stack_after};

use act1_base::Memory;
use act1_dd::{Branch, Ref};
use indexmap::IndexSet;
use std::alloc::Global;

/// Whether a fork is a single input: 0 where it is 0, and 1 where it is 1.
pub fn is_input(branch: Branch) -> bool
    ensures { result ≡ is_input branch }
{
    match (branch.low, branch.high) {
        (Ref::Zero, Ref::One) => true,
        _ => false,
    }
}

/// The fork of a number.
pub fn branch_at(store: &[Branch], node: usize) -> Branch
    requires { node < length store.now }
    ensures { result ≡ branch_at store.now node }
{
    store[node]
}

// Visits a fork: where it is new and no single input, it is found, and its parts are to be visited next.
fn visit_fork(
    store: &[Branch],
    node: usize,
    found: &mut IndexSet<usize>,
    stack: &mut Vec<Ref>,
) -> Result<(), Memory>
    requires { node < length store.now }
    ensures found { OnOk result (found.new.keys ≡ found_after store.now (ref.Node node) found.old.keys) }
    ensures stack { OnOk result (stack.new.items ≡ stack_after store.now (ref.Node node) found.old.keys stack.old.items) }
{
    let branch = branch_at(store, node);
    if is_input(branch) {
        return Ok(());
    }
    if !found.insert(node)? {
        return Ok(());
    }
    stack.push(branch.high)?;
    stack.push(branch.low)?;
    Ok(())
}

// Visits a ref. A constant has no forks.
fn visit(
    store: &[Branch],
    r: Ref,
    found: &mut IndexSet<usize>,
    stack: &mut Vec<Ref>,
) -> Result<(), Memory>
    requires { IsRef store.now r }
    ensures found { OnOk result (found.new.keys ≡ found_after store.now r found.old.keys) }
    ensures stack { OnOk result (stack.new.items ≡ stack_after store.now r found.old.keys stack.old.items) }
{
    match r {
        Ref::Zero => Ok(()),
        Ref::One => Ok(()),
        Ref::Node(node) => visit_fork(store, node, found, stack),
    }
}

/// The forks under a ref but single inputs, by their numbers, in the order of the first visit: a fork
/// before its low part, and the low part before the high part. A list has the refs that are still to be
/// visited, so that the depth of a chain takes no recursion.
pub fn first_visits(alloc: Global, store: &[Branch], root: Ref) -> Result<IndexSet<usize>, Memory>
    requires store { IsStore store.now }
    requires root { IsRef store.now root }
    ensures { IfOk result (λ found. AreVisited store.now root found.keys) }
{
    let mut found = IndexSet::new(alloc);
    let mut stack = Vec::new(alloc);
    stack.push(root)?;
    while let Some(r) = stack.pop() {
        visit(store, r, &mut found, &mut stack)?;
    }
    Ok(found)
}
