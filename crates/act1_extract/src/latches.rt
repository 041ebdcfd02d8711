ghost use Rattle.std.specs.Prelude.{◌≡◌, ◌<◌, map, length, IfOk};
ghost use Rattle.act1_circuit.specs.Range.{InRange};
ghost use Rattle.act1_extract.specs.Layout.{latch_of};

use crate::layout::{start_takes, taken_signal};
use crate::plan::Layout;
use act1_base::{Items, Memory};
use act1_blif::Latch;
use act1_circuit::{Circuit, Start};
use std::alloc::Global;

// The latch of a start.
fn latch_of(circuit: &Circuit, layout: &Layout, start: &Start) -> Result<Latch, Memory>
    requires range { InRange circuit.now }
    requires low { start.now.«module» < length circuit.now.modules }
    ensures { IfOk result (λ latch. latch ≡ latch_of circuit.now layout.now start.now) }
{
    Ok(Latch {
        name: start.name.clone()?,
        input: taken_signal(layout, start_takes(circuit, start)),
        init: start.init,
    })
}

/// The latches of the starts, in their order.
pub fn latches_of(alloc: Global, circuit: &Circuit, layout: &Layout) -> Result<Items<Latch>, Memory>
    requires { InRange circuit.now }
    ensures { IfOk result (λ latches. latches ≡ map (latch_of circuit.now layout.now) circuit.now.starts) }
{
    let mut latches = Items::new(alloc);
    for start in circuit.starts.as_slice() {
        latches.push(latch_of(circuit, layout, start)?)?;
    }
    Ok(latches)
}
