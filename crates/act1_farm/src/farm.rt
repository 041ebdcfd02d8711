ghost use Rattle.std.specs.Prelude.{◌≡◌, ◌↔◌, IsTrue, IfOk, replicate, is_some};
ghost use Rattle.act1_farm.specs.declared.event.JobState.{JobState};
ghost use Rattle.act1_farm.specs.declared.event.JobState.TheVariants.{Waiting};
ghost use Rattle.act1_farm.specs.Farm.{Fits, states_after, state_after, job_number};

use crate::event::{Event, JobState};
use act1_base::{Items, Memory};
use std::alloc::Global;

/// Jobs for helpers.
#[derive(Debug, Drop)]
pub struct Farm {
    /// The state of each job.
    pub states: Items<JobState>,
}

// The state after the event.
fn after(event: Event, state: JobState) -> Option<JobState>
    ensures { result ≡ state_after event state }
{
    match (event, state) {
        (Event::Started(_), JobState::Waiting) => Some(JobState::Running),
        (Event::Answered { usable, .. }, JobState::Running) => {
            Some(if usable {
                JobState::Taken
            } else {
                JobState::Own
            })
        }
        (Event::Failed(_), JobState::Waiting) => Some(JobState::Own),
        (Event::Failed(_), JobState::Running) => Some(JobState::Own),
        _ => None,
    }
}

// The job of an event.
fn job_number_of(event: Event) -> u16
    ensures { result ≡ job_number event }
{
    match event {
        Event::Started(job) => job,
        Event::Answered { channel, .. } => channel,
        Event::Failed(job) => job,
    }
}

impl Farm {
    /// So many jobs, all waiting.
    pub fn new(alloc: Global, jobs: u16) -> Result<Farm, Memory>
        ensures { IfOk result (λ farm. farm.states ≡ replicate jobs Waiting) }
    {
        let mut states = Items::new(alloc);
        for _job in 0..jobs {
            states.push(JobState::Waiting)?;
        }
        Ok(Farm { states })
    }

    /// Takes the event, or answers false and changes nothing where it doesn't fit.
    pub fn step(&mut self, event: Event) -> bool
        ensures fits { IsTrue result ↔ ((s : JobState) × Fits self.old.states event s) }
        ensures states { self.new.states ≡ states_after self.old.states event }
    {
        let job = usize::from(job_number_of(event));
        match self.states.get(job) {
            None => false,
            Some(state) => match after(event, *state) {
                None => false,
                Some(next) => {
                    self.states.set(job, next);
                    true
                }
            },
        }
    }
}
