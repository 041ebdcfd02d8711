ghost use Rattle.std.specs.Prelude.{◌≡◌, ◌≤◌, ◌+◌, ◌<◌, map, length, IfOk, IfErr, Ok as is_ok};
ghost use Rattle.act1_groute.specs.Routes.{routes as routes_of};
ghost use Rattle.act1_plan.specs.Legal.{Legal};
ghost use Rattle.act1_search.specs.declared.verdict.Verdict.TheVariants.{Assigned};
ghost use Rattle.act1_flow.specs.Flow.{AreProblemsOf};
ghost use Rattle.act1_flow.specs.Helping.{helping_of};
ghost use Rattle.act1_flow.specs.Steps.{AreTracksOf, ChannelCalls, EndsIn, EndsRefuted, IsChannelStop, IsSpentStop, IsStopOf, IsTracked};

use crate::answer::Settings;
use crate::planning::RoutedPlan;
use act1_base::{Items, Memory};
use act1_channel::{Log, Problem};
use act1_device::{Device, devices_are_small};
use act1_farm::{FarmStop, Outcome, Tally, verdicts};
use act1_groute::{Routes, problem_of};
use act1_outside::Helpers;
use act1_plan::Plan;
use act1_search::Verdict;
use std::alloc::Global;

/// The tracks of all channels, and what came of the helpers.
#[derive(Drop)]
pub struct Tracked {
    pub tracks: Items<Items<u16>>,
    pub tally: Tally,
}

/// Why the channels of a plan have no tracks.
#[derive(Drop)]
pub enum ChannelStop {
    /// A channel has no assignment, which the log shows.
    Refuted {
        channel: u8,
        connections: u16,
        log: Log,
        tally: Tally,
    },
    /// The search of a channel met as many conflicts as it may.
    Spent {
        channel: u8,
        conflicts: u64,
        tracks: u8,
        connections: u16,
        tally: Tally,
    },
    /// No memory was found.
    Memory,
}

impl From<Memory> for ChannelStop {
    ghost use Rattle.act1_flow.specs.declared.assigning.ChannelStop.TheVariants as variant;

    ghost from_gives = { λ _ stop. stop ≡ variant.Memory };

    fn from(_: Memory) -> Self {
        ChannelStop::Memory
    }
}

// How a list of verdicts ends that has one which is no assignment.
#[derive(Drop)]
enum Ending {
    // The channel is refuted by the log.
    Refuted { channel: usize, log: Log },
    // No memory was found.
    Memory,
}

impl From<Memory> for Ending {
    ghost use Rattle.act1_flow.specs.declared.assigning.Ending.TheVariants as variant;

    ghost from_gives = { λ _ ending. ending ≡ variant.Memory };

    fn from(_: Memory) -> Self {
        Ending::Memory
    }
}

// The problems of the channels of a routed plan, rising.
fn problems_of(
    alloc: Global,
    device: &Device,
    plan: &Plan,
    routes: &Routes,
) -> Result<Items<Problem>, Memory>
    requires legal { Legal device.now plan.now }
    requires routed { routes_of device.now plan.now ≡ is_ok routes.now.channels }
    ensures { IfOk result (AreProblemsOf device.now plan.now routes.now.channels) }
{
    devices_are_small();
    let mut problems = Items::new(alloc);
    for channel in 0..device.rows + 1 {
        problems.push(problem_of(alloc, device, routes, channel, plan.k)?)?;
    }
    Ok(problems)
}

// The tracks of the verdicts, which are assignments, or the first that is none.
fn tracks_in(alloc: Global, verdicts: Items<Verdict>) -> Result<Items<Items<u16>>, Ending>
    ensures ok { IfOk result (λ tracks. map Assigned tracks ≡ verdicts) }
    ensures err { IfErr result (EndsIn verdicts) }
{
    let mut tracks = Items::new(alloc);
    for verdict in verdicts.into_vec() {
        match verdict {
            Verdict::Assigned(assigned) => tracks.push(assigned)?,
            Verdict::Refuted(log) => {
                return Err(Ending::Refuted {
                    channel: tracks.len(),
                    log,
                });
            }
        }
    }
    Ok(tracks)
}

// The tracks of all channels, or why the first that is refuted has none.
fn tracks_or_stop(
    alloc: Global,
    problems: &[Problem],
    outcome: Outcome,
) -> Result<Tracked, ChannelStop>
    requires few { length problems.now ≤ 255 }
    requires each { length outcome.answers ≤ length problems.now }
    ensures ok { IfOk result (AreTracksOf outcome) }
    ensures err { IfErr result (EndsRefuted problems.now outcome) }
{
    let Outcome { answers, tally } = outcome;
    match tracks_in(alloc, answers) {
        Ok(tracks) => Ok(Tracked { tracks, tally }),
        Err(Ending::Refuted { channel, log }) => {
            let problem = &problems[channel];
            Err(ChannelStop::Refuted {
                channel: channel as u8,
                connections: problem.connections.len() as u16,
                log,
                tally,
            })
        }
        Err(Ending::Memory) => Err(ChannelStop::Memory),
    }
}

// Why a channel has no tracks, where the verdicts stop at it.
fn spent(problems: &[Problem], stop: FarmStop) -> ChannelStop
    requires few { length problems.now ≤ 255 }
    requires within { IsStopOf problems.now stop }
    ensures { IsSpentStop problems.now stop result }
{
    match stop {
        FarmStop::Spent {
            channel,
            conflicts,
            tally,
        } => {
            let problem = &problems[usize::from(channel)];
            ChannelStop::Spent {
                channel: channel as u8,
                conflicts,
                tracks: problem.tracks.len() as u8,
                connections: problem.connections.len() as u16,
                tally,
            }
        }
        FarmStop::Memory => ChannelStop::Memory,
    }
}

/// Tracks for the connections of each channel, the channels rising, each by a helper's usable answer, or where none came
/// by the search with the budget of the settings. The first channel that isn't assigned is answered.
pub fn all_tracks<H: Helpers>(
    alloc: Global,
    device: &Device,
    routed: &RoutedPlan,
    settings: &Settings,
    program: &str,
    helpers: &mut H,
) -> Result<Tracked, ChannelStop>
    requires legal { Legal device.now routed.now.plan }
    requires routed { routes_of device.now routed.now.plan ≡ is_ok routed.now.routes.channels }
    requires budget { 0 < settings.now.budget }
    ensures ok { IfOk result (IsTracked device.now routed.now.plan settings.now (helping_of program.now (H.seen helpers.old) (H.seen helpers.new))) }
    ensures err { IfErr result (IsChannelStop device.now routed.now.plan settings.now (helping_of program.now (H.seen helpers.old) (H.seen helpers.new))) }
    ensures calls { ChannelCalls device.now routed.now.plan routed.now.routes.channels settings.now (helping_of program.now (H.seen helpers.old) (H.seen helpers.new)) }
{
    devices_are_small();
    let problems = problems_of(alloc, device, &routed.plan, &routed.routes)?;
    let problems = problems.as_slice();
    match verdicts(
        alloc,
        problems,
        settings.budget,
        settings.jobs,
        program,
        helpers,
    ) {
        Ok(outcome) => tracks_or_stop(alloc, problems, outcome),
        Err(stop) => Err(spent(problems, stop)),
    }
}
