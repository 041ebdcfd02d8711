ghost use Rattle.std.specs.Prelude.{◌≡◌, IfOk, map};
ghost use Rattle.act1_blif.specs.declared.blif.Latch.{Latch};
ghost use Rattle.act1_net.specs.declared.net.NetTerm.TheVariants as term;
ghost use Rattle.act1_net.specs.Net.{IsPlainOf};

use crate::build::output_names;
use crate::copies::copy_of_blif;
use crate::net::{Net, NetTerm};
use act1_base::{Items, Memory};
use act1_blif::{Blif, Latch, netlists_are_whole};
use std::alloc::Global;

// The signals as terms.
fn terms_of_outputs(alloc: Global, outputs: &[u16]) -> Result<Items<NetTerm>, Memory>
    ensures { IfOk result (λ terms. terms ≡ map term.Signal outputs.now) }
{
    let mut terms = Items::new(alloc);
    for signal in outputs {
        terms.push(NetTerm::Signal(*signal))?;
    }
    Ok(terms)
}

// The signals at the inputs of latches as terms.
fn terms_of_latches(alloc: Global, latches: &[Latch]) -> Result<Items<NetTerm>, Memory>
    ensures { IfOk result (λ terms. terms ≡ map (λ (latch : Latch). term.Signal latch.input) latches.now) }
{
    let mut terms = Items::new(alloc);
    for latch in latches {
        terms.push(NetTerm::Signal(latch.input))?;
    }
    Ok(terms)
}

/// The netlist as it stands: an equal copy, the names of its outputs, and for each output and each latch
/// the signal that the netlist has there. It shows what the netlist shows.
///
/// It takes time and memory in proportion to the netlist. The one error is `Memory`.
pub fn plain(alloc: Global, blif: &Blif) -> Result<Net, Memory>
    ensures { IfOk result (IsPlainOf blif.now) }
{
    netlists_are_whole();
    let names = output_names(alloc, blif)?;
    let outputs = terms_of_outputs(alloc, blif.outputs.as_slice())?;
    let next = terms_of_latches(alloc, blif.latches.as_slice())?;
    let blif = copy_of_blif(alloc, blif)?;
    Ok(Net {
        blif,
        names,
        outputs,
        next,
    })
}
