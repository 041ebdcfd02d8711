ghost use Rattle.std.specs.Prelude.{◌≡◌};
ghost use Rattle.act1_blif.specs.Names.{signal_name};

use crate::blif::Blif;

/// The name of a signal, or no bytes past the last one.
pub fn signal_name(blif: &Blif, signal: u16) -> &[u8]
    ensures { result.now ≡ signal_name blif.now signal }
{
    let inputs = blif.inputs.as_slice();
    let latches = blif.latches.as_slice();
    let nodes = blif.nodes.as_slice();
    let signal = usize::from(signal);
    if signal < inputs.len() {
        return inputs[signal].as_bytes();
    }
    let signal = signal - inputs.len();
    if signal < latches.len() {
        return latches[signal].name.as_bytes();
    }
    let signal = signal - latches.len();
    if signal < nodes.len() {
        return nodes[signal].name.as_bytes();
    }
    b""
}
