ghost use Rattle.std.specs.Prelude.{◌≡◌, ◌<◌, IfOk, length};
ghost use Rattle.std.specs.List.{AllZip};
ghost use Rattle.act1_dd.specs.Diagram.{IsRef};
ghost use Rattle.act1_dd.specs.declared.refs.Ref.TheVariants as ref;
ghost use Rattle.act1_cover.specs.declared.forest.Term.TheVariants as term;
ghost use Rattle.act1_cover.specs.Forests.{IsForestOf};
ghost use Rattle.act1_cover.specs.Stores.{IsStore, branch_at, tree_of};
ghost use Rattle.act1_cover.specs.Visiting.{AreVisited, IsFound, IsForkFor, IsTermOf};

use crate::forest::{Forest, Fork, Term};
use crate::visit::{branch_at, first_visits, is_input};
use act1_base::{Items, Memory};
use act1_dd::{Branch, Ref};
use indexmap::IndexSet;
use std::alloc::Global;

// The term of a fork's number. A number of 2^32 or more, which no forest of a cover has, finds no memory.
fn numbered(number: usize) -> Result<Term, Memory>
    ensures { IfOk result (λ t. t ≡ term.Fork number) }
{
    match u32::try_from(number) {
        Ok(number) => Ok(Term::Fork(number)),
        Err(_) => Err(Memory),
    }
}

// The term of a fork: its input, where it is a single one, and else its place among those found.
fn fork_term(store: &[Branch], found: &IndexSet<usize>, node: usize) -> Result<Term, Memory>
    requires node { node < length store.now }
    requires found { IsFound store.now found.now.keys (ref.Node node) }
    ensures { IfOk result (IsTermOf store.now found.now.keys (ref.Node node)) }
{
    let branch = branch_at(store, node);
    if is_input(branch) {
        return Ok(Term::Var(branch.var));
    }
    match found.get_index_of(&node) {
        Some(number) => numbered(number),
        None => unreachable!(),
    }
}

// The term of a ref.
fn term_of(store: &[Branch], found: &IndexSet<usize>, r: Ref) -> Result<Term, Memory>
    requires r { IsRef store.now r }
    requires found { IsFound store.now found.now.keys r }
    ensures { IfOk result (IsTermOf store.now found.now.keys r) }
{
    match r {
        Ref::Zero => Ok(Term::Zero),
        Ref::One => Ok(Term::One),
        Ref::Node(node) => fork_term(store, found, node),
    }
}

// The fork of a forest that stands for a fork of the store.
fn fork_for(store: &[Branch], found: &IndexSet<usize>, node: usize) -> Result<Fork, Memory>
    requires node { node < length store.now }
    requires low { IsRef store.now (branch_at store.now node).low }
    requires high { IsRef store.now (branch_at store.now node).high }
    requires low_found { IsFound store.now found.now.keys (branch_at store.now node).low }
    requires high_found { IsFound store.now found.now.keys (branch_at store.now node).high }
    ensures { IfOk result (IsForkFor store.now found.now.keys node) }
{
    let branch = branch_at(store, node);
    let low = term_of(store, found, branch.low)?;
    let high = term_of(store, found, branch.high)?;
    Ok(Fork {
        var: branch.var,
        low,
        high,
    })
}

// The forks of a forest, one for each that was found.
fn forks_for(
    alloc: Global,
    store: &[Branch],
    root: Ref,
    found: &IndexSet<usize>,
) -> Result<Items<Fork>, Memory>
    requires store { IsStore store.now }
    requires visited { AreVisited store.now root found.now.keys }
    ensures { IfOk result (AllZip (IsForkFor store.now found.now.keys) found.now.keys) }
{
    let mut forks = Items::new(alloc);
    while let Some(node) = found.get_index(forks.len()) {
        forks.push(fork_for(store, found, *node)?)?;
    }
    Ok(forks)
}

/// The forest of the tree that a ref of a store is.
pub fn forest_in(alloc: Global, store: &[Branch], root: Ref) -> Result<Forest, Memory>
    requires store { IsStore store.now }
    requires root { IsRef store.now root }
    ensures { IfOk result (IsForestOf (tree_of store.now root)) }
{
    let found = first_visits(alloc, store, root)?;
    let forks = forks_for(alloc, store, root, &found)?;
    let root = term_of(store, &found, root)?;
    Ok(Forest { forks, root })
}
