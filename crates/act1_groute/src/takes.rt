ghost use Rattle.std.specs.Prelude.{◌≡◌, [], ◌∷◌, ◌++◌, filter, OnOk};
ghost use Rattle.std.specs.List.{list_any};
ghost use Rattle.act1_groute.specs.Lists.{least_by};
ghost use Rattle.act1_groute.specs.Routes.{is_served, take_for};
ghost use Rattle.act1_groute.specs.RouteSteps.{Leads, better, column_distance, crosses_both, demand, free_longs, is_other, serves};

use crate::net::{LongWire, Take};
use crate::reach::{distance, nearest, source_column, source_covers, wire_covers};
use crate::stop::RouteStop;
use act1_base::Memory;
use act1_circuit::Source;
use act1_device::Device;
use act1_plan::{Plan, is_same_source};

// Whether the long wire crosses both channels.
fn crosses_both(device: &Device, wire: LongWire, home: u8, channel: u8) -> bool
    ensures { result ≡ crosses_both device.now home channel wire }
{
    wire_covers(device, wire, home) && wire_covers(device, wire, channel)
}

// The long wire that is nearest to the column, of the best so far and of one more if that crosses both channels.
fn better(
    device: &Device,
    column: u8,
    home: u8,
    channel: u8,
    best: Option<LongWire>,
    wire: LongWire,
) -> Option<LongWire>
    ensures { result ≡ better device.now column home channel best wire }
{
    if !crosses_both(device, wire, home, channel) {
        return best;
    }
    match best {
        Some(other) => {
            if distance(wire.column, column) < distance(other.column, column) {
                Some(wire)
            } else {
                Some(other)
            }
        }
        None => Some(wire),
    }
}

// The long wire, of those that no net has taken and that cross both channels, that is nearest to the column, and the
// first of these.
#[tactic(auto, using(crate::proofs::TakeSteps::better_more))]
fn least_free(
    device: &Device,
    free: &[LongWire],
    column: u8,
    home: u8,
    channel: u8,
) -> Option<LongWire>
    ensures { result ≡ least_by (column_distance column) (filter (crosses_both device.now home channel) free.now) }
{
    let mut best = None;
    for wire in free {
        best = better(device, column, home, channel, best, *wire);
    }
    best
}

// Whether a long wire that the net has taken serves the channel.
fn is_crossed(device: &Device, takes: &[Take], net: Source, channel: u8) -> bool
    ensures { result ≡ list_any (serves device.now net channel) takes.now }
{
    takes.iter().any(|take| is_same_source(take.net, net)
        && wire_covers(device, take.wire, channel))
}

// Whether the source of the net or a long wire that it has taken serves the channel.
#[tactic(auto, using(crate::proofs::TakeSteps::served_by))]
fn is_served(device: &Device, plan: &Plan, takes: &[Take], net: Source, channel: u8) -> bool
    ensures { result ≡ is_served device.now plan.now takes.now (demand net channel) }
{
    source_covers(device, plan, net, channel) || is_crossed(device, takes, net, channel)
}

// Whether the long wires differ.
fn is_other(wire: LongWire, other: LongWire) -> bool
    ensures { result ≡ is_other wire other }
{
    !(wire.column == other.column && wire.index == other.index)
}

// Takes a long wire.
fn take_wire(takes: &mut Vec<Take>, free: &mut Vec<LongWire>, take: Take) -> Result<(), Memory>
    ensures takes { OnOk result (takes.new.items ≡ takes.old.items ++ take ∷ []) }
    ensures free { OnOk result (free.new.items ≡ filter (is_other take.wire) free.old.items) }
{
    takes.push(take)?;
    let wire = take.wire;
    free.retain(|other| is_other(wire, *other));
    Ok(())
}

/// Serves a channel that the net needs: nothing more is taken where the source covers it or a long wire of the net
/// crosses it, and else the nearest long wire that crosses both the channel and the nearest channel that the source
/// covers.
#[tactic(auto, using(crate::proofs::TakeSteps::took_none, crate::proofs::TakeSteps::free_more))]
pub(crate) fn take_for(
    device: &Device,
    plan: &Plan,
    takes: &mut Vec<Take>,
    free: &mut Vec<LongWire>,
    net: Source,
    channel: u8,
) -> Result<(), RouteStop>
    requires { free.old.items ≡ free_longs device.now takes.old.items }
    ensures takes { Leads (take_for device.now plan.now takes.old.items (demand net channel)) takes.new.items result }
    ensures free { OnOk result (free.new.items ≡ free_longs device.now takes.new.items) }
{
    if is_served(device, plan, takes.as_slice(), net, channel) {
        return Ok(());
    }
    let home = nearest(device, plan, net, channel);
    let column = source_column(device, plan, net);
    match least_free(device, free.as_slice(), column, home, channel) {
        Some(wire) => Ok(take_wire(takes, free, Take { net, wire, home })?),
        None => Err(RouteStop::Vertical { net, channel }),
    }
}
