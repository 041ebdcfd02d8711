ghost use Rattle.std.specs.Prelude.{◌≡◌, ◌<◌, ◌≤◌, ◌+◌, Bool, if◌then◌else◌, length, not, true, IfOk};
ghost use Rattle.act1_circuit.specs.Range.{InRange};
ghost use Rattle.act1_circuit.specs.PairForm.{has_clock};
ghost use Rattle.act1_meaning.specs.Extracted.{count_below, first_node, is_outside, is_slave};
ghost use Rattle.act1_meaning.specs.ArrayNames.{outside_count};
ghost use Rattle.act1_extract.specs.Parts.{module_signals};

use crate::sources::{has_clock, is_slave};
use act1_base::{Items, Memory};
use act1_circuit::Circuit;
use std::alloc::Global;

// One where a test holds, and else none.
fn one_if(test: bool) -> usize
    ensures { result ≡ (if test then 1 else 0) }
{
    if test { 1 } else { 0 }
}

/// How many modules are slaves.
pub fn count_slaves(circuit: &Circuit) -> usize
    requires { length circuit.now.modules ≤ 2048 }
    ensures count { result ≡ count_below (is_slave circuit.now) (length circuit.now.modules) }
    ensures few { result ≤ 2048 }
{
    let mut slaves = 0;
    for module in 0..circuit.modules.len() {
        slaves += one_if(is_slave(circuit, module as u16));
    }
    slaves
}

/// How many modules are outside pairs.
pub fn count_outside(circuit: &Circuit) -> usize
    requires { length circuit.now.modules ≤ 2048 }
    ensures count { result ≡ outside_count circuit.now }
    ensures few { result ≤ 2048 }
{
    let mut outside = 0;
    for module in 0..circuit.modules.len() {
        outside += one_if(!has_clock(circuit, module as u16));
    }
    outside
}

// The signal of a module: that of a latch where the clock is on a pin, and that of a node elsewhere.
fn signal_at(has_clock: bool, latch: usize, node: usize) -> u16
    requires latch { latch ≤ 65535 }
    requires node { node ≤ 65535 }
    ensures { result ≡ (if has_clock then latch else node) }
{
    if has_clock { latch as u16 } else { node as u16 }
}

/// The signal of each module.
pub fn module_signals(alloc: Global, circuit: &Circuit) -> Result<Items<u16>, Memory>
    requires inputs { length circuit.now.inputs ≤ 2112 }
    requires modules { length circuit.now.modules ≤ 2048 }
    ensures { IfOk result (λ signals. signals ≡ module_signals circuit.now (length circuit.now.modules)) }
{
    let mut latch = circuit.inputs.len();
    let mut node = latch + count_slaves(circuit);
    let mut signals = Vec::new(alloc);
    for module in 0..circuit.modules.len() {
        let is_clocked = has_clock(circuit, module as u16);
        signals.push(signal_at(is_clocked, latch, node))?;
        latch += one_if(is_slave(circuit, module as u16));
        node += one_if(!is_clocked);
    }
    Ok(Items::from_vec(signals))
}
