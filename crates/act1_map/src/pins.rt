ghost use Rattle.std.specs.Prelude.{◌≡◌, ◌<◌, length, slice_index_or};
ghost use Rattle.act1_cover.specs.Costs.{MaySide};
ghost use Rattle.act1_cover.specs.Least.{IsForest};
ghost use Rattle.act1_cover.specs.Pins.{pins_of, second_pin, side_pins};
ghost use Rattle.act1_cover.specs.Tilings.{MayStand, low_of, low_side, no_fork, number_of};
ghost use Rattle.act1_map.specs.CoverSteps.{IsForkWithin};

use act1_cover::{Forest, Fork, Term, Tile};

// The fork of a number. Its parts are there.
fn fork_at(forest: &Forest, fork: u32) -> Fork
    requires forest { IsForest forest.now }
    requires there { fork < length forest.now.forks }
    ensures is { result ≡ slice_index_or forest.now.forks fork no_fork }
    ensures low { IsForkWithin forest.now result.low }
    ensures high { IsForkWithin forest.now result.high }
{
    forest.forks.as_slice()[fork as usize]
}

// The two data pins and the select of a side: a term alone, or both parts of a fork of the same tree and its
// input.
fn side_pins(forest: &Forest, multiplexer: bool, term: Term) -> [Term; 3]
    requires forest { IsForest forest.now }
    requires side { MaySide forest.now multiplexer term }
    requires within { IsForkWithin forest.now term }
    ensures { result ≡ side_pins forest.now multiplexer term }
{
    if !multiplexer {
        return [term, Term::Zero, Term::Zero];
    }
    match term {
        Term::Fork(number) => {
            let fork = fork_at(forest, number);
            [fork.low, fork.high, Term::Var(fork.var)]
        }
        Term::Zero => unreachable!(),
        Term::One => unreachable!(),
        Term::Var(_) => unreachable!(),
    }
}

// The low side of a tile: the low part of its fork, or in the OR form that of the low part.
fn low_side(forest: &Forest, tile: Tile) -> Term
    requires forest { IsForest forest.now }
    requires stands { MayStand forest.now tile.fork tile.shape }
    ensures is { result ≡ low_side forest.now tile.fork tile.shape.or_form }
    ensures within { IsForkWithin forest.now result }
{
    let low = fork_at(forest, tile.fork).low;
    if !tile.shape.or_form {
        return low;
    }
    match low {
        Term::Fork(second) => fork_at(forest, second).low,
        Term::Zero => unreachable!(),
        Term::One => unreachable!(),
        Term::Var(_) => unreachable!(),
    }
}

// The last select of a tile: the input of the second fork of the OR form.
fn second_pin(forest: &Forest, tile: Tile) -> Term
    requires forest { IsForest forest.now }
    requires stands { MayStand forest.now tile.fork tile.shape }
    ensures { result ≡ second_pin forest.now tile.shape.or_form (number_of (low_of forest.now tile.fork)) }
{
    if !tile.shape.or_form {
        return Term::Zero;
    }
    match fork_at(forest, tile.fork).low {
        Term::Fork(second) => Term::Var(fork_at(forest, second).var),
        Term::Zero => unreachable!(),
        Term::One => unreachable!(),
        Term::Var(_) => unreachable!(),
    }
}

/// What a tile has at the pins A0, A1, SA, B0, B1, SB, S0 and S1 of the logic module of the ACT 1 data book,
/// as terms of its forest.
pub fn tile_pins(forest: &Forest, tile: Tile) -> [Term; 8]
    requires forest { IsForest forest.now }
    requires stands { MayStand forest.now tile.fork tile.shape }
    ensures { result ≡ pins_of forest.now tile }
{
    let fork = fork_at(forest, tile.fork);
    let low = side_pins(forest, tile.shape.low_side, low_side(forest, tile));
    let high = side_pins(forest, tile.shape.high_side, fork.high);
    let second = second_pin(forest, tile);
    [
        low[0],
        low[1],
        low[2],
        high[0],
        high[1],
        high[2],
        Term::Var(fork.var),
        second,
    ]
}
