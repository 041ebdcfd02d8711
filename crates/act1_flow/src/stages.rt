ghost use Rattle.std.specs.Prelude.{◌≡◌, ◌<◌, ◌≤◌, IfErr, IfOk, OnOk};
ghost use Rattle.act1_flow.specs.Flow.{FlowCalls, FlowGives, HasPads};
ghost use Rattle.act1_flow.specs.Helping.{helping_of};
ghost use Rattle.act1_flow.specs.Steps.{IsPlanStop, IsProgrammed, IsReadyPlan, OnPads, flow_stop};
ghost use Rattle.act1_flow.specs.Sure.{IsExtractable, IsRoutedOrMemory, IsUnspent};
ghost use Rattle.act1_ample.specs.Ample.{IsAmple};
ghost use Rattle.act1_emit.specs.File.{HasTracks};

use crate::answer::{FlowStop, Routed, Settings};
use crate::assigning::{ChannelStop, Tracked, all_tracks};
use crate::laws::{flow_is_sure, plan_laws};
use crate::mapping::circuit_for;
use crate::planning::{RoutedPlan, plan_for, routed};
use act1_base::Memory;
use act1_blif::{Blif, ports_are_few};
use act1_device::{Device, devices_are_small};
use act1_emit::emit;
use act1_outside::Helpers;
use act1_plan::Plan;
use act1_report::Report;
use std::alloc::Global;

// Whether there is a pad for each input and each output.
fn find_pads(device: &Device, net: &Blif) -> Result<(), FlowStop>
    ensures pads { OnOk result (HasPads device.now net.now) }
    ensures stop { IfErr result (OnPads device.now net.now) }
{
    ports_are_few();
    devices_are_small();
    let needed = net.inputs.len() + net.outputs.len();
    let have = device.pads.len();
    if have < needed {
        return Err(FlowStop::Pads {
            needed: needed as u32,
            have: have as u32,
        });
    }
    Ok(())
}

// What the flow answers where a channel has no tracks.
fn channel_stop(plan: Plan, stop: ChannelStop) -> FlowStop
    ensures { result ≡ flow_stop plan stop }
{
    match stop {
        ChannelStop::Refuted {
            channel,
            connections,
            log,
            tally,
        } => FlowStop::Refuted {
            report: Report { plan, channel, log },
            connections,
            tally,
        },
        ChannelStop::Spent {
            channel,
            conflicts,
            tracks,
            connections,
            tally,
        } => FlowStop::Spent {
            plan,
            channel,
            conflicts,
            tracks,
            connections,
            tally,
        },
        ChannelStop::Memory => FlowStop::Memory,
    }
}

// The antifuse file of a plan that is routed and assigned, and how many modules it uses.
fn programmed(
    alloc: Global,
    device: &Device,
    routed: &RoutedPlan,
    tracked: &Tracked,
) -> Result<Routed, Memory>
    requires { HasTracks device.now routed.now.plan routed.now.routes.channels tracked.now.tracks }
    ensures programmed { IfOk result (IsProgrammed device.now routed.now.plan routed.now.routes.channels tracked.now.tracks) }
    ensures tally { IfOk result (λ made. made.tally ≡ tracked.now.tally) }
{
    let fuses = emit(
        alloc,
        device,
        &routed.plan,
        &routed.routes,
        tracked.tracks.as_slice(),
    )?;
    let modules = routed.plan.placed.circuit.modules.len() as u16;
    let tally = tracked.tally;
    Ok(Routed {
        fuses,
        modules,
        tally,
    })
}

// The stages of the flow up to the routes, each a line, by the contracts of their layers.
fn routed_plan(
    alloc: Global,
    device: &Device,
    net: &Blif,
    settings: &Settings,
) -> Result<RoutedPlan, FlowStop>
    requires low { 1 ≤ settings.now.k }
    requires high { settings.now.k ≤ 64 }
    ensures ok { IfOk result (IsReadyPlan device.now net.now settings.now) }
    ensures err { IfErr result (IsPlanStop device.now net.now settings.now) }
{
    plan_laws();
    find_pads(device, net)?;
    let circuit = circuit_for(alloc, device, net)?;
    let plan = plan_for(alloc, device, &circuit, settings)?;
    let routed = routed(alloc, device, plan)?;
    Ok(routed)
}

// The stages behind the routes.
fn flow_in_stages<H: Helpers>(
    alloc: Global,
    device: &Device,
    net: &Blif,
    settings: &Settings,
    program: &str,
    helpers: &mut H,
) -> Result<Routed, FlowStop>
    requires low { 1 ≤ settings.now.k }
    requires high { settings.now.k ≤ 64 }
    requires budget { 0 < settings.now.budget }
    ensures gives { FlowGives device.now net.now settings.now (helping_of program.now (H.seen helpers.old) (H.seen helpers.new)) result }
    ensures calls { FlowCalls device.now net.now settings.now (helping_of program.now (H.seen helpers.old) (H.seen helpers.new)) }
{
    plan_laws();
    let routed = routed_plan(alloc, device, net, settings)?;
    match all_tracks(alloc, device, &routed, settings, program, helpers) {
        Ok(tracked) => Ok(programmed(alloc, device, &routed, &tracked)?),
        Err(stop) => Err(channel_stop(routed.plan, stop)),
    }
}

/// Turns a netlist into an antifuse file for a device, or says why there is none. On a device that is ample for the
/// netlist (sites at least its need, pads at least its inputs and outputs, and as many unbroken tracks in each channel and
/// long wires over all channels as its inputs and need together) there always is one, unless no memory is found, whatever
/// the settings and the helpers. What `extract` of `act1_extract` answers to the antifuse file is a netlist, or want of
/// memory.
///
/// With `jobs` above 0 the helpers of `program` are asked for each channel with connections, as `verdicts` of `act1_farm`
/// asks them: a usable answer decides its channel, and any other channel is searched by the flow itself, so a helper that
/// fails, lies or is silent never changes what can be routed. The tally says what came of them.
///
/// Errors, the first of these that is the case. `Pads` where the netlist has more inputs and outputs than the device pads;
/// `Full` where the modules that it is mapped to, at most its least count, are more than the sites; `Vertical` where the
/// rule of routes finds no long wire for a net of the plan; then, of the first channel that isn't assigned,
/// `Refuted` where it has no assignment, and `Spent` where no usable answer came for it and its search met as many
/// conflicts as the budget, which isn't the case where the budget is `(1 + T)^n` or more for each channel of T tracks and n
/// connections. `Memory` where none was found.
pub fn flow<H: Helpers>(
    alloc: Global,
    device: &Device,
    net: &Blif,
    settings: &Settings,
    program: &str,
    helpers: &mut H,
) -> Result<Routed, FlowStop>
    requires low { 1 ≤ settings.now.k }
    requires high { settings.now.k ≤ 64 }
    requires budget { 0 < settings.now.budget }
    ensures gives { FlowGives device.now net.now settings.now (helping_of program.now (H.seen helpers.old) (H.seen helpers.new)) result }
    ensures calls { FlowCalls device.now net.now settings.now (helping_of program.now (H.seen helpers.old) (H.seen helpers.new)) }
    ensures ample { IsAmple device.now net.now → IsRoutedOrMemory result }
    ensures unspent { IsUnspent device.now settings.now.budget result }
    ensures extracts { IsExtractable device.now result }
{
    flow_is_sure();
    flow_in_stages(alloc, device, net, settings, program, helpers)
}
