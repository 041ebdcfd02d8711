ghost use Rattle.std.specs.Prelude.{◌≡◌, ◌<◌, All, IfOk, length};
ghost use Rattle.act1_order.specs.Reach.{AreReachedFrom};
ghost use Rattle.act1_blif.specs.Graph.{signal_count};
ghost use Rattle.act1_net.specs.MarkSteps.{AreTermsWithin, reads_left, roots_of, signals_left};

use crate::left::{signals_in, terms_of};
use crate::net::NetTerm;
use act1_base::{Items, Memory};
use act1_blif::{Blif, netlists_are_whole};
use act1_order::reached_from;
use std::alloc::Global;

// The signals of the terms of some signals.
fn signals_left(alloc: Global, terms: &[NetTerm], signals: &[u16]) -> Result<Items<u16>, Memory>
    requires { All (λ signal. signal < length terms.now) signals.now }
    ensures { IfOk result (λ left. left ≡ signals_left terms.now signals.now) }
{
    let own = terms_of(alloc, terms, signals)?;
    signals_in(alloc, own.as_slice())
}

// What each signal reads: an input none, a latch what it takes, and a node what is left of its inputs.
fn reads_left(alloc: Global, blif: &Blif, terms: &[NetTerm]) -> Result<Vec<Items<u16>>, Memory>
    requires { length terms.now ≡ signal_count blif.now }
    ensures { IfOk result (λ reads. reads.items ≡ reads_left blif.now terms.now) }
{
    netlists_are_whole();
    let mut reads = Vec::new(alloc);
    for _input in 0..blif.inputs.len() {
        reads.push(Items::new(alloc))?;
    }
    for latch in blif.latches.as_slice() {
        reads.push(signals_left(alloc, terms, &[latch.input])?)?;
    }
    for node in blif.nodes.as_slice() {
        reads.push(signals_left(alloc, terms, node.inputs.as_slice())?)?;
    }
    Ok(reads)
}

// What is kept in any case: the signals that outputs are, and the inputs.
fn roots_of(alloc: Global, blif: &Blif, terms: &[NetTerm]) -> Result<Vec<u16>, Memory>
    requires { length terms.now ≡ signal_count blif.now }
    ensures { IfOk result (λ roots. roots.items ≡ roots_of blif.now terms.now) }
{
    netlists_are_whole();
    let mut roots = signals_left(alloc, terms, blif.outputs.as_slice())?.into_vec();
    for input in 0..blif.inputs.len() {
        roots.push(input as u16)?;
    }
    Ok(roots)
}

/// Which signals are kept: the inputs, what the outputs are, and what kept signals read.
pub fn marks_of(alloc: Global, blif: &Blif, terms: &[NetTerm]) -> Result<Vec<bool>, Memory>
    requires all { length terms.now ≡ signal_count blif.now }
    requires within { AreTermsWithin (signal_count blif.now) terms.now }
    ensures { IfOk result (λ marks. AreReachedFrom (reads_left blif.now terms.now) (roots_of blif.now terms.now) marks.items) }
{
    netlists_are_whole();
    let reads = reads_left(alloc, blif, terms)?;
    let roots = roots_of(alloc, blif, terms)?;
    reached_from(alloc, &reads, &roots)
}
