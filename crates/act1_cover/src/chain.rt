ghost use Rattle.std.specs.Prelude.{◌≡◌, ◌≤◌, ◌<◌, [], IfOk, length, slice_index_or};
ghost use Rattle.act1_logic.specs.declared.cover.Row.{Row as AnyRow};
ghost use Rattle.act1_dd.specs.Diagram.{IsRef};
ghost use Rattle.act1_dd.specs.Steps.{IsNumbered};
ghost use Rattle.act1_cover.specs.Denotes.{chain_of};
ghost use Rattle.act1_cover.specs.Forests.{IsForestOf, constant, fork_of, row_chain, with_mark};
ghost use Rattle.act1_cover.specs.Stores.{Draws, IsStore, tree_of};

use crate::forest::Forest;
use crate::numbering::forest_in;
use act1_base::{Items, Memory};
use act1_dd::{Branch, Ref};
use act1_logic::{Cover, Mark, Row};
use indexmap::IndexSet;
use std::alloc::Global;

// The constant.
fn constant(value: bool) -> Ref
    ensures is_ref { IsRef [] result }
    ensures tree { tree_of [] result ≡ constant value }
{
    if value { Ref::One } else { Ref::Zero }
}

// The number of a fork, which goes last where it is new.
fn number_of(store: &mut IndexSet<Branch>, branch: Branch) -> Result<usize, Memory>
    ensures { IfOk result (IsNumbered store.old.keys branch store.new.keys) }
{
    let (number, _) = store.insert_full(branch)?;
    Ok(number)
}

// The fork of an input and two parts. A fork whose parts are the same is that part.
fn fork(store: &mut IndexSet<Branch>, var: u8, low: Ref, high: Ref) -> Result<Ref, Memory>
    requires store { IsStore store.old.keys }
    requires low { IsRef store.old.keys low }
    requires high { IsRef store.old.keys high }
    ensures { IfOk result (λ r. Draws store.old.keys store.new.keys r (fork_of var (tree_of store.old.keys low) (tree_of store.old.keys high))) }
{
    if low == high {
        return Ok(low);
    }
    let number = number_of(store, Branch { var, low, high })?;
    Ok(Ref::Node(number))
}

// The chain from a mark on: at a literal, a match goes to the rest of the row, and a mismatch to the next row.
fn at_mark(
    store: &mut IndexSet<Branch>,
    var: u8,
    mark: Mark,
    rest: Ref,
    next: Ref,
) -> Result<Ref, Memory>
    requires store { IsStore store.old.keys }
    requires rest { IsRef store.old.keys rest }
    requires next { IsRef store.old.keys next }
    ensures { IfOk result (λ r. Draws store.old.keys store.new.keys r (with_mark var mark (tree_of store.old.keys rest) (tree_of store.old.keys next))) }
{
    match mark {
        Mark::Zero => fork(store, var, rest, next),
        Mark::One => fork(store, var, next, rest),
        Mark::Dash => Ok(rest),
    }
}

// The chain from a row on, made from its last mark to its first: a row that is matched to its end goes to
// `matched`.
fn at_row(
    store: &mut IndexSet<Branch>,
    marks: &[Mark],
    matched: Ref,
    next: Ref,
) -> Result<Ref, Memory>
    requires few { length marks.now ≤ 64 }
    requires store { IsStore store.old.keys }
    requires matched { IsRef store.old.keys matched }
    requires next { IsRef store.old.keys next }
    ensures { IfOk result (λ r. Draws store.old.keys store.new.keys r (row_chain (tree_of store.old.keys matched) (tree_of store.old.keys next) 0 marks.now)) }
{
    let mut var = marks.len();
    let mut r = matched;
    while var > 0 {
        var -= 1;
        r = at_mark(store, var as u8, marks[var], r, next)?;
    }
    Ok(r)
}

// The marks of a row.
fn marks_of(rows: &[Row], at: usize) -> &[Mark]
    requires { at < length rows.now }
    ensures { (d : AnyRow) → result.now ≡ (slice_index_or rows.entry.now at d).marks }
{
    rows[at].marks.as_slice()
}

// The chain of all literals, made from the last row to the first.
fn chain(store: &mut IndexSet<Branch>, cover: &Cover) -> Result<Ref, Memory>
    requires { store.old.keys ≡ [] }
    ensures { IfOk result (λ r. Draws [] store.new.keys r (chain_of cover.now)) }
{
    let matched = constant(cover.output);
    let rows = cover.rows.as_slice();
    let mut at = rows.len();
    let mut r = constant(!cover.output);
    while at > 0 {
        at -= 1;
        r = at_row(store, marks_of(rows, at), matched, r)?;
    }
    Ok(r)
}

// The forks of a store in their order.
fn listed(alloc: Global, store: &IndexSet<Branch>) -> Result<Items<Branch>, Memory>
    ensures { IfOk result (λ branches. branches ≡ store.now.keys) }
{
    let mut branches = Items::new(alloc);
    while let Some(branch) = store.get_index(branches.len()) {
        branches.push(*branch)?;
    }
    Ok(branches)
}

/// The forest of a cover's literal chain. The rows are taken in order, and the literals of a row in the
/// order of inputs. A match goes to the next literal of the row, and a mismatch to the first literal of the
/// next row. A row matched to its end gives the cover's output, and where no row is left the other value is
/// given. The chain is this project's own.
pub fn forest_of_chain(alloc: Global, cover: &Cover) -> Result<Forest, Memory>
    ensures { IfOk result (IsForestOf (chain_of cover.now)) }
{
    let mut store = IndexSet::new(alloc);
    let root = chain(&mut store, cover)?;
    let branches = listed(alloc, &store)?;
    forest_in(alloc, branches.as_slice(), root)
}
