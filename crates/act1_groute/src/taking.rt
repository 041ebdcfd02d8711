ghost use Rattle.std.specs.Prelude.{◌≡◌, ◌≤◌, ◌++◌, [], All, map, IfOk, OnOk};
ghost use Rattle.act1_groute.specs.declared.net.Net.{Net as ANet};
ghost use Rattle.act1_groute.specs.Nets.{sinks};
ghost use Rattle.act1_groute.specs.Routes.{all_longs, own, take_all};
ghost use Rattle.act1_groute.specs.RouteSteps.{Gives, IsWith, Leads, demands_by, demands_from, demands_of, free_longs, longs_of};

use crate::net::{LongWire, Net, Take};
use crate::nets::needs;
use crate::stop::RouteStop;
use crate::takes::take_for;
use act1_base::{Items, Memory};
use act1_circuit::Source;
use act1_device::{Device, devices_are_small};
use act1_plan::{Plan, is_same_source};
use std::alloc::Global;

// Adds the long wires of a column.
#[tactic(auto, using(crate::proofs::DemandSteps::longs_next))]
fn add_longs(all: &mut Vec<LongWire>, column: u8, count: usize) -> Result<(), Memory>
    requires { count ≤ 256 }
    ensures { OnOk result (all.new.items ≡ all.old.items ++ longs_of count column) }
{
    for index in 0..count {
        all.push(LongWire {
            column,
            index: index as u8,
        })?;
    }
    Ok(())
}

// All long wires, by column and number.
#[tactic(auto, using(crate::proofs::DemandSteps::few_longs, crate::proofs::DemandSteps::columns_next))]
fn all_longs(alloc: Global, device: &Device) -> Result<Vec<LongWire>, Memory>
    ensures { IfOk result (λ all. all.items ≡ all_longs device.now) }
{
    let mut all = Vec::new(alloc);
    for column in 0..device.columns {
        add_longs(&mut all, column, device.longs.len())?;
    }
    Ok(all)
}

// Serves a channel, if the net needs it.
#[tactic(auto, using(crate::proofs::DemandSteps::needed_one, crate::proofs::DemandSteps::needed_none))]
fn take_channel(
    device: &Device,
    plan: &Plan,
    takes: &mut Vec<Take>,
    free: &mut Vec<LongWire>,
    net: &Net,
    channel: u8,
) -> Result<(), RouteStop>
    requires net { IsWith device.now plan.now net.now }
    requires free { free.old.items ≡ free_longs device.now takes.old.items }
    ensures takes { Leads (take_all device.now plan.now takes.old.items (demands_from device.now plan.now net.now.source channel 1)) takes.new.items result }
    ensures free { OnOk result (free.new.items ≡ free_longs device.now takes.new.items) }
{
    if !needs(net.sinks.as_slice(), channel) {
        return Ok(());
    }
    take_for(device, plan, takes, free, net.source, channel)
}

// Serves the channels that the net needs.
#[tactic(auto, using(crate::proofs::DemandSteps::channel_next, crate::proofs::DemandSteps::channel_stops))]
fn take_channels(
    device: &Device,
    plan: &Plan,
    takes: &mut Vec<Take>,
    free: &mut Vec<LongWire>,
    net: &Net,
) -> Result<(), RouteStop>
    requires net { IsWith device.now plan.now net.now }
    requires free { free.old.items ≡ free_longs device.now takes.old.items }
    ensures takes { Leads (take_all device.now plan.now takes.old.items (demands_of device.now plan.now net.now.source)) takes.new.items result }
    ensures free { OnOk result (free.new.items ≡ free_longs device.now takes.new.items) }
{
    devices_are_small();
    for channel in 0..device.rows + 1 {
        take_channel(device, plan, takes, free, net, channel)?;
    }
    Ok(())
}

// Serves the channels that the nets need, one net after the other.
#[tactic(auto, using(crate::proofs::DemandSteps::net_next, crate::proofs::DemandSteps::net_stops))]
fn take_nets(
    device: &Device,
    plan: &Plan,
    takes: &mut Vec<Take>,
    free: &mut Vec<LongWire>,
    nets: &[Net],
) -> Result<(), RouteStop>
    requires nets { All (IsWith device.now plan.now) nets.now }
    requires free { free.old.items ≡ free_longs device.now takes.old.items }
    ensures { Leads (take_all device.now plan.now takes.old.items (demands_by device.now plan.now nets.now)) takes.new.items result }
{
    for net in nets {
        take_channels(device, plan, takes, free, net)?;
    }
    Ok(())
}

/// The long wires that the nets take.
pub(crate) fn takes_of(
    alloc: Global,
    device: &Device,
    plan: &Plan,
    nets: &[Net],
) -> Result<Items<Take>, RouteStop>
    requires { All (IsWith device.now plan.now) nets.now }
    ensures { Gives (take_all device.now plan.now [] (demands_by device.now plan.now nets.now)) result }
{
    let mut free = all_longs(alloc, device)?;
    let mut takes = Vec::new(alloc);
    take_nets(device, plan, &mut takes, &mut free, nets)?;
    Ok(Items::from_vec(takes))
}

// What a net has taken.
fn own_takes(alloc: Global, takes: &[Take], net: Source) -> Result<Items<Take>, Memory>
    ensures { IfOk result (λ found. found ≡ own net takes.now) }
{
    let mut own = Vec::new(alloc);
    for take in takes {
        if is_same_source(take.net, net) {
            own.push(*take)?;
        }
    }
    Ok(Items::from_vec(own))
}

/// What each of the nets has taken.
pub(crate) fn owns_of(
    alloc: Global,
    takes: &[Take],
    nets: &[Net],
) -> Result<Vec<Items<Take>>, Memory>
    ensures { IfOk result (λ owns. owns.items ≡ map (λ (n : ANet). own n.source takes.now) nets.now) }
{
    let mut owns = Vec::new(alloc);
    for net in nets {
        owns.push(own_takes(alloc, takes, net.source)?)?;
    }
    Ok(owns)
}
