ghost use Rattle.std.specs.Prelude.{◌≡◌, ◌++◌, IfOk, OnOk, length};
ghost use Rattle.std.specs.List.{filter_map};
ghost use Rattle.std.specs.Option.{option_to_list};
ghost use Rattle.act1_order.specs.Reach.{AreReachedFrom};
ghost use Rattle.act1_net.specs.Gates.{signal_of};
ghost use Rattle.act1_map.specs.CoverSteps.{AreCovered};
ghost use Rattle.act1_map.specs.MapSteps.{net_reads, net_roots};
ghost use Rattle.act1_map.specs.Meaning.{IsNet};

use crate::covers::Covered;
use crate::reads::reads_of_node;
use act1_base::{Items, Memory};
use act1_blif::netlists_are_whole;
use act1_net::{Net, NetTerm};
use act1_order::reached_from;
use std::alloc::Global;

// For each signal those that it reads: a node those at the pins of its tiles, or the one that it is.
fn net_reads(alloc: Global, net: &Net, covers: &[Covered]) -> Result<Vec<Items<u16>>, Memory>
    requires { AreCovered net.now.blif.nodes (length net.now.blif.nodes) covers.now }
    ensures { IfOk result (λ reads. reads.items ≡ net_reads net.now covers.now) }
{
    netlists_are_whole();
    let nodes = net.blif.nodes.as_slice();
    let mut reads = Vec::new(alloc);
    for _signal in 0..net.blif.inputs.len() + net.blif.latches.len() {
        reads.push(Items::new(alloc))?;
    }
    for at in 0..nodes.len() {
        reads.push(reads_of_node(alloc, &nodes[at], &covers[at])?)?;
    }
    Ok(reads)
}

// The signal of a term goes last, if the term has one.
fn add_signal(signals: &mut Vec<u16>, term: NetTerm) -> Result<(), Memory>
    ensures { OnOk result (signals.new.items ≡ signals.old.items ++ option_to_list (signal_of term)) }
{
    match term {
        NetTerm::Zero => Ok(()),
        NetTerm::One => Ok(()),
        NetTerm::Signal(signal) => {
            signals.push(signal)?;
            Ok(())
        }
    }
}

// The signals among some terms go last.
fn add_signals(signals: &mut Vec<u16>, terms: &[NetTerm]) -> Result<(), Memory>
    ensures { OnOk result (signals.new.items ≡ signals.old.items ++ filter_map signal_of terms.now) }
{
    for term in terms {
        add_signal(signals, *term)?;
    }
    Ok(())
}

// The signals that outputs are and that latches take.
fn net_roots(alloc: Global, net: &Net) -> Result<Vec<u16>, Memory>
    ensures { IfOk result (λ roots. roots.items ≡ net_roots net.now) }
{
    let mut roots = Vec::new(alloc);
    add_signals(&mut roots, net.outputs.as_slice())?;
    add_signals(&mut roots, net.next.as_slice())?;
    Ok(roots)
}

/// Which signals are read: by outputs, by latches, and by nodes that are read. A node reads only what its least
/// cover has at pins, which may leave out inputs that its value doesn't depend on. The one error is `Memory`.
pub fn live_signals(alloc: Global, net: &Net, covers: &[Covered]) -> Result<Vec<bool>, Memory>
    requires net { IsNet net.now }
    requires covered { AreCovered net.now.blif.nodes (length net.now.blif.nodes) covers.now }
    ensures { IfOk result (λ live. AreReachedFrom (net_reads net.now covers.now) (net_roots net.now) live.items) }
{
    netlists_are_whole();
    let reads = net_reads(alloc, net, covers)?;
    let roots = net_roots(alloc, net)?;
    reached_from(alloc, &reads, &roots)
}
