ghost use Rattle.std.specs.Prelude.{ℕ, ◌≡◌, ◌<◌, ◌+◌, ◌^◌, IfOk, IfSome, MatchOption, length};
ghost use Rattle.std.specs.Option.{option_to_list};
ghost use Rattle.act1_cover.specs.Costs.{AreBestFrom, AreRoots, AreWithin, IsBest, IsChoice, IsWithin, MayOr, MaySide, cost_in, side_cost, tile_cost};
ghost use Rattle.act1_cover.specs.Least.{IsForest};
ghost use Rattle.act1_cover.specs.Tilings.{MayStand, high_of, inner, low_of, low_side, shape_number, total};

use crate::best::{Best, Choice};
use crate::forest::{Forest, Term};
use crate::tile::Shape;
use act1_base::Memory;
use std::alloc::Global;

/// The low part of a fork.
pub fn low_of(forest: &Forest, fork: usize) -> Term
    requires { fork < length forest.now.forks }
    ensures { result ≡ low_of forest.now fork }
{
    forest.forks.as_slice()[fork].low
}

/// The high part of a fork.
pub fn high_of(forest: &Forest, fork: usize) -> Term
    requires { fork < length forest.now.forks }
    ensures { result ≡ high_of forest.now fork }
{
    forest.forks.as_slice()[fork].high
}

/// The fork of the same tree that a term is, if it is one.
pub fn inner(forest: &Forest, roots: &[bool], term: Term) -> Option<usize>
    requires roots { AreRoots forest.now roots.now }
    requires within { IsWithin forest.now term }
    ensures inner { option_to_list result ≡ inner forest.now term }
    ensures within { IfSome result (λ k. k < length forest.now.forks) }
{
    match term {
        Term::Zero => None,
        Term::One => None,
        Term::Var(_) => None,
        Term::Fork(fork) => {
            let fork = fork as usize;
            if roots[fork] { None } else { Some(fork) }
        }
    }
}

// What the forks of the same tree under a term take: nothing, where it is none of them.
fn term_cost(forest: &Forest, roots: &[bool], table: &[Best], term: Term) -> u64
    requires roots { AreRoots forest.now roots.now }
    requires table { length table.now ≡ length forest.now.forks }
    requires within { IsWithin forest.now term }
    ensures { result ≡ total (cost_in table.now) (inner forest.now term) }
{
    match inner(forest, roots, term) {
        Some(fork) => table[fork].cost,
        None => 0,
    }
}

// What a side of a tile takes: a term, or the two parts of the fork that it is. A multiplexer has to be a fork
// of the same tree.
fn side_cost(
    forest: &Forest,
    roots: &[bool],
    table: &[Best],
    term: Term,
    multiplexer: bool,
) -> Option<u128>
    requires roots { AreRoots forest.now roots.now }
    requires table { length table.now ≡ length forest.now.forks }
    requires parts { AreWithin forest.now }
    requires within { IsWithin forest.now term }
    ensures cost { MatchOption result (¬ MaySide forest.now multiplexer term) (λ cost. MaySide forest.now multiplexer term × (cost ≡ side_cost forest.now (cost_in table.now) multiplexer term)) }
    ensures few { IfSome result (λ cost. cost < 2 ^ 65) }
{
    if !multiplexer {
        return Some(u128::from(term_cost(forest, roots, table, term)));
    }
    match inner(forest, roots, term) {
        Some(fork) => {
            let low = term_cost(forest, roots, table, low_of(forest, fork));
            let high = term_cost(forest, roots, table, high_of(forest, fork));
            Some(u128::from(low) + u128::from(high))
        }
        None => None,
    }
}

/// The low side of a tile: the low part of its fork, or in the OR form that of the low part. The OR form has to
/// have a fork of the same tree there, with the same high part.
pub fn low_side(forest: &Forest, roots: &[bool], fork: usize, or_form: bool) -> Option<Term>
    requires roots { AreRoots forest.now roots.now }
    requires parts { AreWithin forest.now }
    requires fork { fork < length forest.now.forks }
    ensures side { MatchOption result (¬ MayOr forest.now fork or_form) (λ term. MayOr forest.now fork or_form × (term ≡ low_side forest.now fork or_form)) }
    ensures within { IfSome result (IsWithin forest.now) }
{
    let low = low_of(forest, fork);
    if !or_form {
        return Some(low);
    }
    match inner(forest, roots, low) {
        Some(second) => {
            if high_of(forest, second) == high_of(forest, fork) {
                Some(low_of(forest, second))
            } else {
                None
            }
        }
        None => None,
    }
}

// What a tile of this shape takes, if it may stand at the fork.
fn tile_cost(
    forest: &Forest,
    roots: &[bool],
    table: &[Best],
    fork: usize,
    shape: Shape,
) -> Option<u128>
    requires roots { AreRoots forest.now roots.now }
    requires table { length table.now ≡ length forest.now.forks }
    requires parts { AreWithin forest.now }
    requires fork { fork < length forest.now.forks }
    ensures { MatchOption result (¬ MayStand forest.now fork shape) (λ cost. MayStand forest.now fork shape × (cost ≡ tile_cost forest.now (cost_in table.now) fork shape)) }
{
    let term = match low_side(forest, roots, fork, shape.or_form) {
        Some(term) => term,
        None => return None,
    };
    let low = match side_cost(forest, roots, table, term, shape.low_side) {
        Some(cost) => cost,
        None => return None,
    };
    match side_cost(forest, roots, table, high_of(forest, fork), shape.high_side) {
        Some(high) => Some(1 + (low + high)),
        None => None,
    }
}

// The shape of a number.
fn shape_of(number: u8) -> Shape
    requires { number < 8 }
    ensures { shape_number result ≡ number }
{
    Shape {
        or_form: number == 1 || number == 3 || number == 5 || number == 7,
        high_side: number == 2 || number == 3 || number == 6 || number == 7,
        low_side: number >= 4,
    }
}

// The better of a choice and the tile of this shape, where that may stand there.
fn better(
    forest: &Forest,
    roots: &[bool],
    table: &[Best],
    fork: usize,
    number: u8,
    best: Choice,
) -> Choice
    requires roots { AreRoots forest.now roots.now }
    requires table { length table.now ≡ length forest.now.forks }
    requires parts { AreWithin forest.now }
    requires fork { fork < length forest.now.forks }
    requires number { number < 8 }
    requires best { IsChoice forest.now (cost_in table.now) fork number best }
    ensures { IsChoice forest.now (cost_in table.now) fork (number + 1) result }
{
    let shape = shape_of(number);
    match tile_cost(forest, roots, table, fork, shape) {
        Some(cost) => {
            if cost < best.cost {
                Choice { cost, shape }
            } else {
                best
            }
        }
        None => best,
    }
}

// The plain tile, which may stand at each fork.
fn plain_choice(forest: &Forest, roots: &[bool], table: &[Best], fork: usize) -> Choice
    requires roots { AreRoots forest.now roots.now }
    requires table { length table.now ≡ length forest.now.forks }
    requires parts { AreWithin forest.now }
    requires fork { fork < length forest.now.forks }
    ensures { IsChoice forest.now (cost_in table.now) fork 1 result }
{
    let low = term_cost(forest, roots, table, low_of(forest, fork));
    let high = term_cost(forest, roots, table, high_of(forest, fork));
    Choice {
        cost: 1 + (u128::from(low) + u128::from(high)),
        shape: Shape {
            or_form: false,
            high_side: false,
            low_side: false,
        },
    }
}

// The least choice over all shapes.
fn least_choice(forest: &Forest, roots: &[bool], table: &[Best], fork: usize) -> Choice
    requires roots { AreRoots forest.now roots.now }
    requires table { length table.now ≡ length forest.now.forks }
    requires parts { AreWithin forest.now }
    requires fork { fork < length forest.now.forks }
    ensures { IsChoice forest.now (cost_in table.now) fork 8 result }
{
    let mut best = plain_choice(forest, roots, table, fork);
    for number in 1..8 {
        best = better(forest, roots, table, fork, number, best);
    }
    best
}

// The entry of a fork. A cost of 2^64 or more, which no forest has, finds no memory.
fn best_of(forest: &Forest, roots: &[bool], table: &[Best], fork: usize) -> Result<Best, Memory>
    requires roots { AreRoots forest.now roots.now }
    requires table { length table.now ≡ length forest.now.forks }
    requires parts { AreWithin forest.now }
    requires fork { fork < length forest.now.forks }
    ensures { IfOk result (IsBest forest.now (cost_in table.now) fork) }
{
    let choice = least_choice(forest, roots, table, fork);
    match u64::try_from(choice.cost) {
        Ok(cost) => Ok(Best {
            cost,
            shape: choice.shape,
        }),
        Err(_) => Err(Memory),
    }
}

/// The least choice at each fork, from the last fork to the first: the forks of the same tree to which a
/// tile refers come after its fork.
pub fn costs_of(alloc: Global, forest: &Forest, roots: &[bool]) -> Result<Vec<Best>, Memory>
    requires forest { IsForest forest.now }
    requires roots { AreRoots forest.now roots.now }
    requires parts { AreWithin forest.now }
    ensures { IfOk result (λ table. AreBestFrom forest.now 0 table.items) }
{
    let none = Best {
        cost: 0,
        shape: Shape {
            or_form: false,
            high_side: false,
            low_side: false,
        },
    };
    let mut table = vec![in alloc; none; forest.forks.len()]?;
    let mut fork = forest.forks.len();
    while fork > 0 {
        fork -= 1;
        table[fork] = best_of(forest, roots, &table, fork)?;
    }
    Ok(table)
}
