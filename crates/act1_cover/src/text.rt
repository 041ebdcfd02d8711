ghost use Rattle.std.specs.Prelude.{◌≡◌, ◌++◌, ◌∷◌, [], length, map, IfOk, OnOk, take, ◌+◌, codes};
ghost use Rattle.std.specs.Fmt.{decimal};
ghost use Rattle.act1_base.specs.Words.{text_line, text_of_lines};
ghost use Rattle.act1_cover.specs.Text.{IsCoverText, fork_lines, fork_words, term_word, tile_words};
ghost use Rattle.act1_cover.specs.TextSteps.{AddsNode, AddsNodes};

use crate::forest::{Fork, Term};
use crate::forests::forest_of;
use crate::least::least_cover;
use crate::tile::Tile;
use act1_base::{Memory, add_number, add_word, write_named, write_number, write_word};
use act1_blif::{Blif, Node};
use std::alloc::Global;

// Adds a blank, a letter and a number.
fn add_lettered(text: &mut Vec<u8>, letter: u8, number: u64) -> Result<(), Memory>
    ensures { OnOk result (text.new.items ≡ text.old.items ++ 32 ∷ letter ∷ decimal number) }
{
    text.push(b' ')?;
    text.push(letter)?;
    write_number(text, number)
}

// Adds a blank and a term.
fn add_term(text: &mut Vec<u8>, term: Term) -> Result<(), Memory>
    ensures { OnOk result (text.new.items ≡ text.old.items ++ 32 ∷ term_word term) }
{
    match term {
        Term::Zero => add_word(text, b"0"),
        Term::One => add_word(text, b"1"),
        Term::Var(input) => add_lettered(text, b'x', u64::from(input)),
        Term::Fork(fork) => add_lettered(text, b'f', u64::from(fork)),
    }
}

// Adds the line of a fork.
fn write_fork(text: &mut Vec<u8>, number: u64, fork: Fork) -> Result<(), Memory>
    ensures { OnOk result (text.new.items ≡ text.old.items ++ text_line (fork_words number fork)) }
{
    text.extend_from_slice(b"fork")?;
    add_number(text, number)?;
    add_lettered(text, b'x', u64::from(fork.var))?;
    add_term(text, fork.low)?;
    add_term(text, fork.high)?;
    text.push(b'\n')?;
    Ok(())
}

// Adds the lines of the forks.
fn write_forks(text: &mut Vec<u8>, forks: &[Fork]) -> Result<(), Memory>
    ensures { OnOk result (text.new.items ≡ text.old.items ++ text_of_lines (fork_lines 0 forks.now)) }
{
    for (number, fork) in forks.iter().enumerate() {
        write_fork(text, number as u64, *fork)?;
    }
    Ok(())
}

// Adds the line of the root.
fn write_root(text: &mut Vec<u8>, root: Term) -> Result<(), Memory>
    ensures { OnOk result (text.new.items ≡ text.old.items ++ text_line (codes "root" ∷ term_word root ∷ [])) }
{
    text.extend_from_slice(b"root")?;
    add_term(text, root)?;
    text.push(b'\n')?;
    Ok(())
}

// Adds the line of a tile.
fn write_tile(text: &mut Vec<u8>, tile: Tile) -> Result<(), Memory>
    ensures { OnOk result (text.new.items ≡ text.old.items ++ text_line (tile_words tile)) }
{
    text.extend_from_slice(b"tile")?;
    add_number(text, u64::from(tile.fork))?;
    add_number(text, u64::from(tile.shape.number()))?;
    text.push(b'\n')?;
    Ok(())
}

// Adds the lines of the tiles.
#[tactic(auto, using(act1_base::proofs::TextGrows::text_more))]
fn write_tiles(text: &mut Vec<u8>, tiles: &[Tile]) -> Result<(), Memory>
    ensures { OnOk result (text.new.items ≡ text.old.items ++ text_of_lines (map tile_words tiles.now)) }
{
    for tile in tiles {
        write_tile(text, *tile)?;
    }
    Ok(())
}

// Adds the lines of a node, and answers how many tiles it has.
fn write_node(alloc: Global, text: &mut Vec<u8>, node: &Node) -> Result<usize, Memory>
    ensures { IfOk result (λ count. AddsNode node.now text.old.items count text.new.items) }
{
    let forest = forest_of(alloc, &node.cover)?;
    let cover = least_cover(alloc, &forest)?;
    write_named(text, b"node", node.name.as_bytes())?;
    write_forks(text, forest.forks.as_slice())?;
    write_root(text, forest.root)?;
    write_tiles(text, cover.tiles.as_slice())?;
    Ok(cover.tiles.len())
}

// The sum of two counts. One of 2^64 or more, which no memory holds, finds no memory.
fn sum(count: u64, more: usize) -> Result<u64, Memory>
    ensures { IfOk result (λ all. all ≡ count + more) }
{
    match count.checked_add(more as u64) {
        Some(all) => Ok(all),
        None => Err(Memory),
    }
}

// Adds the lines of the nodes, and answers how many tiles they have.
fn write_nodes(alloc: Global, text: &mut Vec<u8>, nodes: &[Node]) -> Result<u64, Memory>
    ensures { IfOk result (λ count. AddsNodes nodes.now text.old.items count text.new.items) }
{
    let mut count = 0;
    for node in nodes {
        count = sum(count, write_node(alloc, text, node)?)?;
    }
    Ok(count)
}

// Adds the line of a word and a number.
fn write_count(text: &mut Vec<u8>, word: &[u8], count: u64) -> Result<(), Memory>
    ensures { OnOk result (text.new.items ≡ text.old.items ++ text_line (word.now ∷ decimal count ∷ [])) }
{
    text.extend_from_slice(word)?;
    add_number(text, count)?;
    text.push(b'\n')?;
    Ok(())
}

/// The text of the least covers of a netlist's nodes. One space parts the words of a line, a line feed ends each
/// line, and numbers are decimal without leading zeros:
///
/// ```text
/// act1 cover 1
/// node NAME                  for each node, in order, and then
/// fork K xV LOW HIGH         for each fork of its forest
/// root TERM                  the term that is its value
/// tile K SHAPE               for each tile, rising by K
/// tiles N                    the number of all tiles
/// end
/// ```
///
/// A term is `0`, `1`, `xV` for the node's input V or `fK` for its fork K. Forks are numbered within the node in
/// the order of the first visit from the root, a fork before its low part and the low part before the high part.
/// A shape is the sum of 1 for the OR form, 2 where the high side is a multiplexer and 4 where the low side is
/// one. The tiling has the fewest tiles; where several have, which one is free. The text is this project's own.
/// The one error is `Memory`.
pub fn cover_text(alloc: Global, blif: &Blif) -> Result<Vec<u8>, Memory>
    ensures { IfOk result (λ text. IsCoverText blif.now text.items) }
{
    let mut text = Vec::new(alloc);
    text.extend_from_slice(b"act1 cover 1\n")?;
    let count = write_nodes(alloc, &mut text, blif.nodes.as_slice())?;
    write_count(&mut text, b"tiles", count)?;
    write_word(&mut text, b"end")?;
    Ok(text)
}
