ghost use Rattle.std.specs.Prelude.{◌≡◌, ◌≤◌, [], ◌∷◌, ◌++◌, length, map, IfOk, OnOk};
ghost use Rattle.std.specs.List.{list_any};
ghost use Rattle.act1_plan.specs.Legal.{Legal};
ghost use Rattle.act1_groute.specs.Nets.{nets};
ghost use Rattle.act1_groute.specs.RouteSteps.{net_with, own_sinks, is_in};

use crate::net::{Net, Sink};
use act1_base::{Items, Memory};
use act1_circuit::Source;
use act1_plan::{Plan, is_same_source};
use std::alloc::Global;

// The sinks of a net, in the order of all sinks.
fn own_sinks(alloc: Global, all: &[Sink], net: Source) -> Result<Items<Sink>, Memory>
    ensures { IfOk result (λ own. own ≡ own_sinks all.now net) }
{
    let mut own = Vec::new(alloc);
    for sink in all {
        if is_same_source(sink.source, net) {
            own.push(*sink)?;
        }
    }
    Ok(Items::from_vec(own))
}

// Adds a net with its sinks.
fn add_net(nets: &mut Vec<Net>, alloc: Global, all: &[Sink], source: Source) -> Result<(), Memory>
    ensures { OnOk result (nets.new.items ≡ nets.old.items ++ net_with all.now source ∷ []) }
{
    let sinks = own_sinks(alloc, all, source)?;
    nets.push(Net { source, sinks })?;
    Ok(())
}

/// The nets of a plan with their sinks: those of the inputs, and then those of the modules.
pub(crate) fn nets_of(alloc: Global, plan: &Plan, all: &[Sink]) -> Result<Vec<Net>, Memory>
    requires inputs { length plan.now.placed.circuit.inputs ≤ 65535 }
    requires modules { length plan.now.placed.circuit.modules ≤ 65535 }
    ensures { IfOk result (λ found. found.items ≡ map (net_with all.now) (nets plan.now)) }
{
    let circuit = &plan.placed.circuit;
    let mut nets = Vec::new(alloc);
    for input in 0..circuit.inputs.len() {
        add_net(&mut nets, alloc, all, Source::Input(input as u16))?;
    }
    for number in 0..circuit.modules.len() {
        add_net(&mut nets, alloc, all, Source::Module(number as u16))?;
    }
    Ok(nets)
}

/// Whether a net with these sinks needs the channel.
pub(crate) fn needs(sinks: &[Sink], channel: u8) -> bool
    ensures { result ≡ list_any (is_in channel) sinks.now }
{
    sinks.iter().any(|sink| sink.channel == channel)
}
