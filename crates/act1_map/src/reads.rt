ghost use Rattle.std.specs.Prelude.{ℕ, ◌≡◌, ◌<◌, ◌++◌, Contains, IfOk, OnOk, length};
ghost use Rattle.std.specs.List.{filter_map};
ghost use Rattle.std.specs.Option.{option_to_list};
ghost use Rattle.act1_cover.specs.declared.forest.Term.{Term};
ghost use Rattle.act1_map.specs.CoverSteps.{AsksWithin, IsCovered, input_signal, reads_of_cover};

use crate::covers::Covered;
use crate::pins::tile_pins;
use act1_base::{Items, Memory};
use act1_blif::Node;
use act1_cover::Term;
use std::alloc::Global;

// Adds the signal of a term, where that is an input.
fn add_input(inputs: &[u16], term: Term, reads: &mut Items<u16>) -> Result<(), Memory>
    requires { AsksWithin (length inputs.now) term }
    ensures { OnOk result (reads.new ≡ reads.old ++ option_to_list (input_signal inputs.now term)) }
{
    match term {
        Term::Zero => Ok(()),
        Term::One => Ok(()),
        Term::Var(input) => reads.push(inputs[usize::from(input)]),
        Term::Fork(_) => Ok(()),
    }
}

// Adds the signals of the inputs at some pins.
fn add_inputs(inputs: &[u16], pins: &[Term], reads: &mut Items<u16>) -> Result<(), Memory>
    requires { (e : Term) → Contains pins.now e → AsksWithin (length inputs.now) e }
    ensures { OnOk result (reads.new ≡ reads.old ++ filter_map (input_signal inputs.now) pins.now) }
{
    for pin in pins {
        add_input(inputs, *pin, reads)?;
    }
    Ok(())
}

/// The signals that a node's module has at pins: those of the inputs at the pins of its tiles, and that of
/// the root of its forest, where this is an input. The one error is `Memory`.
pub fn reads_of_node(alloc: Global, node: &Node, covered: &Covered) -> Result<Items<u16>, Memory>
    requires covered { IsCovered node.now covered.now }
    requires width { node.now.cover.width ≡ length node.now.inputs }
    ensures { IfOk result (λ reads. reads ≡ reads_of_cover node.now.inputs covered.now) }
{
    let inputs = node.inputs.as_slice();
    let mut reads = Items::new(alloc);
    add_input(inputs, covered.forest.root, &mut reads)?;
    for tile in covered.cover.tiles.as_slice() {
        add_inputs(inputs, &tile_pins(&covered.forest, *tile), &mut reads)?;
    }
    Ok(reads)
}
