ghost use Rattle.std.specs.Prelude.{◌≡◌, ◌≤◌, IfOk, IfErr, Ok as is_ok};
ghost use Rattle.act1_circuit.specs.Range.{InRange};
ghost use Rattle.act1_groute.specs.Routes.{routes as routes_of};
ghost use Rattle.act1_plan.specs.Legal.{Legal};
ghost use Rattle.act1_flow.specs.Steps.{IsPlanned, IsRouted, OnPlaceStop, OnVertical};

use crate::answer::{FlowStop, Settings};
use act1_circuit::Circuit;
use act1_device::Device;
use act1_groute::{RouteStop, Routes, routes};
use act1_place::place;
use act1_plan::{Plan, plan_of};
use std::alloc::Global;

/// A plan and its routes.
#[derive(Drop)]
pub struct RoutedPlan {
    /// The plan.
    pub plan: Plan,
    /// The connections of its channels.
    pub routes: Routes,
}

/// The plan of a circuit: its modules where the passes leave them from the seeded start, in site order. The errors are
/// those of the placement.
pub fn plan_for(
    alloc: Global,
    device: &Device,
    circuit: &Circuit,
    settings: &Settings,
) -> Result<Plan, FlowStop>
    requires range { InRange circuit.now }
    requires low { 1 ≤ settings.now.k }
    requires high { settings.now.k ≤ 64 }
    ensures ok { IfOk result (IsPlanned device.now circuit.now settings.now) }
    ensures err { IfErr result (OnPlaceStop device.now circuit.now) }
{
    let placement = place(alloc, device, circuit, settings.seed)?;
    Ok(plan_of(
        alloc,
        device,
        circuit,
        placement.spots.as_slice(),
        settings.k,
    )?)
}

/// The routes of a legal plan. `Vertical` with the plan where the rule finds no long wire.
pub fn routed(alloc: Global, device: &Device, plan: Plan) -> Result<RoutedPlan, FlowStop>
    requires { Legal device.now plan }
    ensures ok { IfOk result (IsRouted device.now plan) }
    ensures err { IfErr result (OnVertical device.now plan) }
{
    match routes(alloc, device, &plan) {
        Ok(routes) => Ok(RoutedPlan { plan, routes }),
        Err(RouteStop::Vertical { net, channel }) => {
            Err(FlowStop::Vertical { net, channel, plan })
        }
        Err(RouteStop::Memory) => Err(FlowStop::Memory),
    }
}
