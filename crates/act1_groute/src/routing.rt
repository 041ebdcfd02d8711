ghost use Rattle.std.specs.Prelude.{◌≡◌, map, length, IfOk};
ghost use Rattle.act1_plan.specs.Legal.{Legal};
ghost use Rattle.act1_groute.specs.Nets as plans;
ghost use Rattle.act1_groute.specs.Problems.{AreRoutes};
ghost use Rattle.act1_groute.specs.RouteSteps.{channels_with, net_with};

use crate::connections::wirings_of;
use crate::net::{Net, Take};
use crate::nets::nets_of;
use crate::sinks::sinks_of;
use crate::stop::RouteStop;
use crate::taking::{owns_of, takes_of};
use crate::wiring::{Routes, Wiring};
use act1_base::{Items, Memory};
use act1_device::{Device, devices_are_small};
use act1_plan::Plan;
use std::alloc::Global;

// The connections of all channels.
#[tactic(auto, using(crate::proofs::RoutingSteps::channel_more))]
fn channels_of(
    alloc: Global,
    device: &Device,
    plan: &Plan,
    nets: &[Net],
    owns: &[Items<Take>],
) -> Result<Items<Items<Wiring>>, Memory>
    requires { length nets.now ≡ length owns.now }
    ensures { IfOk result (λ found. found ≡ channels_with device.now plan.now nets.now owns.now) }
{
    devices_are_small();
    let mut found = Vec::new(alloc);
    for channel in 0..device.rows + 1 {
        found.push(wirings_of(alloc, device, plan, nets, owns, channel)?)?;
    }
    Ok(Items::from_vec(found))
}

// The routes of a plan, by its nets with their sinks.
#[tactic(auto, using(crate::proofs::RoutingSteps::all_with, crate::proofs::RoutingSteps::as_many, crate::proofs::RoutingSteps::no_routes))]
fn routes_by(alloc: Global, device: &Device, plan: &Plan, nets: &[Net]) -> Result<Routes, RouteStop>
    requires { nets.now ≡ map (net_with (plans.sinks device.now plan.now)) (plans.nets plan.now) }
    ensures { AreRoutes device.now plan.now result }
{
    let takes = takes_of(alloc, device, plan, nets)?;
    let owns = owns_of(alloc, takes.as_slice(), nets)?;
    let channels = channels_of(alloc, device, plan, nets, owns.as_slice())?;
    Ok(Routes { channels })
}

/// The connections of a plan that is legal for the device, in each of its channels. All but constants and the clock
/// goes by nets, in the order inputs, then modules.
///
/// The source line of a net, its input's pad or its module's output, covers the channels that it crosses. The net
/// needs a channel where it has a sink, a pin or the pad of an output. A needed channel that the source covers is
/// served by the source. Any other, rising, is served by the first long wire that the net took and that crosses it. If
/// there is none, the net takes one that no net has taken and that crosses both the channel and the covered channel
/// nearest to it, which becomes the wire's home: the one whose column is nearest to the source's, of these the one of
/// the least column, and then of the least number.
///
/// In each channel that is needed or a home the net has one connection. Its lines are the sinks there, then the
/// source line where it covers the channel, and then the long wires that have the channel as home, in the order in
/// which the net took them; where the source doesn't cover the channel, the long wire that serves it stands in place
/// of these. It needs the columns from the least to the greatest of its lines. The rules are this project's own.
///
/// Errors: `Vertical` exactly where a net needs a channel for which there is no such wire, with the first such net and
/// channel; `Memory`.
pub fn routes(alloc: Global, device: &Device, plan: &Plan) -> Result<Routes, RouteStop>
    requires { Legal device.now plan.now }
    ensures { AreRoutes device.now plan.now result }
{
    let sinks = sinks_of(alloc, device, plan)?;
    let nets = nets_of(alloc, plan, sinks.as_slice())?;
    routes_by(alloc, device, plan, nets.as_slice())
}
