ghost use Rattle.std.specs.Prelude.{◌≡◌, min, IfOk, IfErr};
ghost use Rattle.act1_flow.specs.Flow.{HasPads};
ghost use Rattle.act1_flow.specs.Steps.{IsCounted, IsCircuitFor, OnFull};

use crate::answer::FlowStop;
use act1_base::Memory;
use act1_blif::{Blif, ports_are_few};
use act1_circuit::Circuit;
use act1_device::{Device, devices_are_small};
use act1_map::{least, least_counts, map, net_means_netlist};
use act1_net::{Net, clean, plain};
use std::alloc::Global;

// A net that does what a netlist does, and its least count of modules.
#[derive(Drop)]
pub struct Counted {
    pub net: Net,
    pub count: u64,
}

// The net that is mapped: the cleaned one, or the netlist as it stands where that has the smaller least count.
fn counted_net(alloc: Global, blif: &Blif) -> Result<Counted, Memory>
    ensures { IfOk result (IsCounted blif.now) }
{
    least_counts();
    let cleaned = clean(alloc, blif)?;
    let count = least(alloc, &cleaned.blif)?;
    let whole = least(alloc, blif)?;
    if count <= whole {
        return Ok(Counted {
            net: cleaned,
            count,
        });
    }
    let net = plain(alloc, blif)?;
    Ok(Counted { net, count: whole })
}

// The count in 32 bits, or the greatest number of these.
fn in_32_bits(count: u64) -> u32
    ensures { result ≡ min count 4294967295 }
{
    count.min(u64::from(u32::MAX)) as u32
}

/// The circuit of a netlist: that of its cleaned net, or of the netlist as it stands where that has the smaller least
/// count. `Full` where the count is more than circuits can number, and so more than any device has sites.
pub fn circuit_for(alloc: Global, device: &Device, blif: &Blif) -> Result<Circuit, FlowStop>
    requires { HasPads device.now blif.now }
    ensures ok { IfOk result (IsCircuitFor blif.now) }
    ensures err { IfErr result (OnFull device.now blif.now) }
{
    ports_are_few();
    devices_are_small();
    net_means_netlist();
    let counted = counted_net(alloc, blif)?;
    if counted.count > 65_535 {
        return Err(FlowStop::Full {
            needed: in_32_bits(counted.count),
            have: u32::from(device.rows) * u32::from(device.columns),
        });
    }
    let circuit = map(alloc, &counted.net)?;
    Ok(circuit)
}
