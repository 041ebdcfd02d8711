ghost use Rattle.std.specs.Prelude.{◌≡◌, ◌<◌, ◌++◌, ◌∷◌, ◌+◌, [], IfOk, OnOk, length};
ghost use Rattle.std.specs.List.{flat_map};
ghost use Rattle.act1_cover.specs.Costs.{AreBestFrom, AreRoots, AreWithin, IsPass, IsWithin, MaySide, marked};
ghost use Rattle.act1_cover.specs.Least.{IsForest, IsLeastTiling};
ghost use Rattle.act1_cover.specs.Tilings.{MayStand, ends, inner, side};

use crate::best::Best;
use crate::costs::{costs_of, high_of, inner, low_of, low_side};
use crate::forest::{Forest, Term};
use crate::roots::roots_of;
use crate::tile::{Shape, Tile, Tiles};
use act1_base::{Items, Memory};
use std::alloc::Global;

// A tile is wanted at a term, where that is a fork of the same tree.
fn mark(forest: &Forest, roots: &[bool], term: Term, marks: &mut Vec<bool>)
    requires roots { AreRoots forest.now roots.now }
    requires count { length marks.old.items ≡ length forest.now.forks }
    requires within { IsWithin forest.now term }
    ensures marked { marks.new.items ≡ marked marks.old.items (inner forest.now term) }
    ensures count { length marks.new.items ≡ length forest.now.forks }
{
    if let Some(fork) = inner(forest, roots, term) {
        marks[fork] = true;
    }
}

// A tile is wanted where a side of a tile refers to: at a term, or at both parts of the fork that it is.
fn mark_side(forest: &Forest, roots: &[bool], term: Term, multiplexer: bool, marks: &mut Vec<bool>)
    requires roots { AreRoots forest.now roots.now }
    requires parts { AreWithin forest.now }
    requires count { length marks.old.items ≡ length forest.now.forks }
    requires within { IsWithin forest.now term }
    requires side { MaySide forest.now multiplexer term }
    ensures marked { marks.new.items ≡ marked marks.old.items (flat_map (inner forest.now) (side forest.now multiplexer term)) }
    ensures count { length marks.new.items ≡ length forest.now.forks }
{
    if !multiplexer {
        mark(forest, roots, term, marks);
        return;
    }
    match inner(forest, roots, term) {
        Some(fork) => {
            mark(forest, roots, low_of(forest, fork), marks);
            mark(forest, roots, high_of(forest, fork), marks);
        }
        None => unreachable!(),
    }
}

// A tile is wanted where a tile refers to.
fn mark_ends(forest: &Forest, roots: &[bool], fork: usize, shape: Shape, marks: &mut Vec<bool>)
    requires roots { AreRoots forest.now roots.now }
    requires parts { AreWithin forest.now }
    requires count { length marks.old.items ≡ length forest.now.forks }
    requires stands { MayStand forest.now fork shape }
    ensures marked { marks.new.items ≡ marked marks.old.items (flat_map (inner forest.now) (ends forest.now fork shape)) }
    ensures count { length marks.new.items ≡ length forest.now.forks }
{
    match low_side(forest, roots, fork, shape.or_form) {
        Some(term) => {
            mark_side(forest, roots, term, shape.low_side, marks);
            mark_side(forest, roots, high_of(forest, fork), shape.high_side, marks);
        }
        None => unreachable!(),
    }
}

// Puts the tile of a fork, where one is wanted there. A number of 2^32 or more, which no forest of a cover has,
// finds no memory.
fn place(
    forest: &Forest,
    roots: &[bool],
    table: &[Best],
    fork: usize,
    marks: &mut Vec<bool>,
    tiles: &mut Items<Tile>,
) -> Result<(), Memory>
    requires forest { IsForest forest.now }
    requires roots { AreRoots forest.now roots.now }
    requires parts { AreWithin forest.now }
    requires table { AreBestFrom forest.now 0 table.now }
    requires fork { fork < length forest.now.forks }
    requires pass { IsPass forest.now table.now fork marks.old.items tiles.old }
    ensures { OnOk result (IsPass forest.now table.now (fork + 1) marks.new.items tiles.new) }
{
    if !marks[fork] {
        return Ok(());
    }
    let number = match u32::try_from(fork) {
        Ok(number) => number,
        Err(_) => return Err(Memory),
    };
    let shape = table[fork].shape;
    tiles.push(Tile {
        fork: number,
        shape,
    })?;
    mark_ends(forest, roots, fork, shape, marks);
    Ok(())
}

// The tiles, from the first fork to the last: one at each root, and one at each fork of the same tree to which
// a tile refers.
fn tiles_of(
    alloc: Global,
    forest: &Forest,
    roots: &[bool],
    table: &[Best],
) -> Result<Items<Tile>, Memory>
    requires forest { IsForest forest.now }
    requires roots { AreRoots forest.now roots.now }
    requires parts { AreWithin forest.now }
    requires table { AreBestFrom forest.now 0 table.now }
    ensures { IfOk result (IsLeastTiling forest.now) }
{
    let mut marks = Vec::from_slice(alloc, roots)?;
    let mut tiles = Items::new(alloc);
    for fork in 0..forest.forks.len() {
        place(forest, roots, table, fork, &mut marks, &mut tiles)?;
    }
    Ok(tiles)
}

/// A tiling of a forest with the fewest tiles over all its tilings. A table has for each fork the least number of
/// tiles of its tree below it, and the shape of the tile there. The one error is `Memory`.
pub fn least_cover(alloc: Global, forest: &Forest) -> Result<Tiles, Memory>
    requires { IsForest forest.now }
    ensures { IfOk result (λ cover. IsLeastTiling forest.now cover.tiles) }
{
    let roots = roots_of(alloc, forest)?;
    let table = costs_of(alloc, forest, roots.as_slice())?;
    let tiles = tiles_of(alloc, forest, roots.as_slice(), table.as_slice())?;
    Ok(Tiles { tiles })
}
