ghost use Rattle.std.specs.Prelude.{Bool, IfOk, List};
ghost use Rattle.act1_net.specs.Net.{IsCleanOf};

use crate::build::kept_net;
use crate::marks::marks_of;
use crate::net::Net;
use crate::pass::terms_of_signals;
use crate::places::Places;
use act1_base::Memory;
use act1_blif::{Blif, netlists_are_whole, one_valuation, order_of};
use std::alloc::Global;

/// The netlist cleaned: constants and copies are passed on, nodes with the same cover of the same signals
/// are joined, and latches and nodes that no output needs are dropped. From each state, cut to the latches
/// that are kept, the net shows what the netlist shows. What is kept stands in the netlist's order with
/// its name, and kept latches keep their inits.
///
/// A cover of the net has rows, each with a mark 0 or 1, and isn't the copy of one input; no two nodes
/// have the same inputs and the same cover; each node is read by an output, a latch or a node; and the
/// net needs no more modules at most than the netlist. An output that has the name of an input or of a
/// kept latch is that signal. Latches are never joined.
///
/// Apart from looking up covers in a hash table it takes time and memory in proportion to the netlist. The
/// one error is `Memory`.
pub fn clean(alloc: Global, blif: &Blif) -> Result<Net, Memory>
    ensures { IfOk result (λ net. (kept : List Bool) × IsCleanOf blif.now kept net) }
{
    one_valuation();
    netlists_are_whole();
    let order = order_of(alloc, blif)?;
    let terms = terms_of_signals(alloc, blif, order.as_slice())?;
    let marks = marks_of(alloc, blif, &terms)?;
    let places = Places::new(alloc, marks)?;
    kept_net(alloc, blif, &terms, &places)
}
