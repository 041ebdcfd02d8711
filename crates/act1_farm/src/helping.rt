ghost use Rattle.std.specs.Prelude.{ℕ, ◌≡◌, ◌<◌, ◌≤◌, [], ◌∷◌, ◌++◌, IsTrue, IsFalse, length, OnOk, OnErr, IfOk};
ghost use Rattle.act1_farm.specs.Story.{asked_for, has_connections, jobs_of};
ghost use Rattle.act1_farm.specs.Jobs.{BeganStory};
ghost use Rattle.act1_farm.specs.Steps.{AreChannels};
ghost use Rattle.act1_farm.specs.Helping.{Helped};

use crate::asking::{ask_all, begin};
use crate::course::Course;
use act1_base::{Items, Memory};
use act1_channel::Problem;
use act1_outside::Helpers;
use std::alloc::Global;

// Adds the channel, if its problem has connections.
fn add_channel(problem: &Problem, channel: u16, channels: &mut Items<u16>) -> Result<(), Memory>
    ensures asked { IsTrue (has_connections problem.now) → OnOk result (channels.new ≡ channels.old ++ channel ∷ []) }
    ensures none { IsFalse (has_connections problem.now) → channels.new ≡ channels.old }
{
    if problem.connections.len() > 0 {
        channels.push(channel)
    } else {
        Ok(())
    }
}

// The channels whose problems have connections.
fn channels_of(alloc: Global, problems: &[Problem]) -> Result<Items<u16>, Memory>
    requires { length problems.now ≤ 65535 }
    ensures { IfOk result (AreChannels problems.now) }
{
    let mut channels = Items::new(alloc);
    for channel in 0..problems.len() as u16 {
        add_channel(&problems[usize::from(channel)], channel, &mut channels)?;
    }
    Ok(channels)
}

/// The calls for helpers, if there are to be any.
pub fn help<H: Helpers>(
    alloc: Global,
    problems: &[Problem],
    budget: u64,
    jobs: u8,
    program: &str,
    helpers: &mut H,
) -> Result<Course, Memory>
    requires few { length problems.now ≤ 65535 }
    ensures helped { IfOk result (Helped program.now problems.now budget jobs (H.seen helpers.old) (H.seen helpers.new)) }
    ensures began { 0 < jobs → OnErr result (BeganStory program.now (jobs_of budget (asked_for problems.now)) jobs (H.seen helpers.old) (H.seen helpers.new)) }
    ensures none { jobs ≡ 0 → H.seen helpers.new ≡ H.seen helpers.old }
{
    let channels = channels_of(alloc, problems)?;
    if jobs == 0 {
        return begin(alloc, channels.len());
    }
    ask_all(
        alloc,
        problems,
        channels.as_slice(),
        budget,
        jobs,
        program,
        helpers,
    )
}
