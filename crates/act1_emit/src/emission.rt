ghost use Rattle.std.specs.Prelude.{IfOk};
ghost use Rattle.act1_groute.specs.Emitted.{Emitted};
ghost use Rattle.act1_emit.specs.File.{HasTracks, Realizes};

use crate::file::file_with;
use crate::place::put_in_order;
use crate::rails::add_rails;
use crate::signals::add_signals;
use act1_base::{Items, Memory};
use act1_device::{Device, Site};
use act1_fuses::FuseFile;
use act1_groute::Routes;
use act1_plan::Plan;
use std::alloc::Global;

// The sites of the plan, in their order.
fn sites_of(
    alloc: Global,
    device: &Device,
    plan: &Plan,
    routes: &Routes,
    tracks: &[Items<u16>],
) -> Result<Items<Site>, Memory>
    requires { HasTracks device.now plan.now routes.now.channels tracks.now }
    ensures { IfOk result (λ sites. Emitted device.now plan.now routes.now.channels tracks.now sites) }
{
    let mut sites = Vec::new(alloc);
    add_rails(&mut sites, device, plan)?;
    add_signals(&mut sites, device, routes.channels.as_slice(), tracks)?;
    put_in_order(&mut sites);
    Ok(Items::from_vec(sites))
}

/// The antifuse file of a plan for its device. `routes` are the connections of the plan, and `tracks` has a list
/// for each channel, from channel 0 on, with a track for each connection of the channel, by number. Inputs have
/// the first pads, in their order, and outputs the pads after these. Each start stands at the spot of its module.
///
/// The antifuses are those that join pins and outputs of a constant or the clock to its track of their channel,
/// each line of a connection to the connection's track at the line's column, and the segments of that track that
/// the connection's interval overlaps to one another.
///
/// The file keeps the rules of its device, its array is sound, and the array's circuit is the plan's. The rules
/// are this project's own. `Memory` comes where no memory is found.
pub fn emit(
    alloc: Global,
    device: &Device,
    plan: &Plan,
    routes: &Routes,
    tracks: &[Items<u16>],
) -> Result<FuseFile, Memory>
    requires { HasTracks device.now plan.now routes.now.channels tracks.now }
    ensures { IfOk result (λ f. Realizes device.now plan.now routes.now.channels tracks.now f) }
{
    let sites = sites_of(alloc, device, plan, routes, tracks)?;
    file_with(alloc, device, plan, sites)
}
