ghost use Rattle.std.specs.Prelude.{◌≡◌, IfOk};
ghost use Rattle.act1_base.specs.Texts.{Gives};
ghost use Rattle.act1_job.specs.Steps as steps;

use crate::draft::Draft;
use crate::line::{JobLine, JobState};
use crate::rules::{is_within, takes_connection, takes_track};
use act1_base::{Items, Memory, Stop};
use act1_channel::Connection;
use std::alloc::Global;

// A job without tracks and connections.
fn empty_draft(alloc: Global, columns: u8, k: u8, budget: u64) -> Draft
    ensures { result ≡ steps.empty_draft columns k budget }
{
    Draft {
        columns,
        k,
        budget,
        tracks: Items::new(alloc),
        connections: Items::new(alloc),
    }
}

// The job with one track more.
fn with_track(mut draft: Draft, breaks: Items<u8>) -> Result<Draft, Memory>
    ensures { IfOk result (λ more. more ≡ steps.with_track draft breaks) }
{
    draft.tracks.push(breaks)?;
    Ok(draft)
}

// The job with one connection more.
fn with_connection(mut draft: Draft, connection: Connection) -> Result<Draft, Memory>
    ensures { IfOk result (λ more. more ≡ steps.with_connection draft connection) }
{
    draft.connections.push(connection)?;
    Ok(draft)
}

// What a line does behind `budget`.
fn body_step(draft: Draft, line: JobLine) -> Result<JobState, Stop<()>>
    ensures { Gives result (steps.body_step draft line) }
{
    match line {
        JobLine::Track { breaks } => {
            if !takes_track(&draft, breaks.as_slice()) {
                return Err(Stop::Fault(()));
            }
            let draft = with_track(draft, breaks)?;
            Ok(JobState::Body { draft })
        }
        JobLine::Connection { connection } => {
            if !takes_connection(&draft, connection) {
                return Err(Stop::Fault(()));
            }
            let draft = with_connection(draft, connection)?;
            Ok(JobState::Body { draft })
        }
        JobLine::End => {
            if draft.tracks.len() == 0 {
                return Err(Stop::Fault(()));
            }
            Ok(JobState::End { draft })
        }
        _ => Err(Stop::Fault(())),
    }
}

// The state, if the test was passed.
fn if_so(test: bool, state: JobState) -> Result<JobState, Stop<()>>
    ensures { Gives result (steps.if_so test state) }
{
    if test {
        Ok(state)
    } else {
        Err(Stop::Fault(()))
    }
}

/// The state after a line more, or the one fault that a line can have.
pub(crate) fn step(alloc: Global, state: JobState, line: JobLine) -> Result<JobState, Stop<()>>
    ensures { Gives result (steps.step state line) }
{
    match state {
        JobState::Start => match line {
            JobLine::Header => Ok(JobState::Header),
            _ => Err(Stop::Fault(())),
        },
        JobState::Header => match line {
            JobLine::Columns { columns } => if_so(
                is_within(2, 64, u64::from(columns)),
                JobState::Columns { columns },
            ),
            _ => Err(Stop::Fault(())),
        },
        JobState::Columns { columns } => match line {
            JobLine::K { k } => {
                if_so(is_within(1, 64, u64::from(k)), JobState::K { columns, k })
            }
            _ => Err(Stop::Fault(())),
        },
        JobState::K { columns, k } => match line {
            JobLine::Budget { budget } => if_so(
                is_within(1, 1_000_000_000_000, budget),
                JobState::Body {
                    draft: empty_draft(alloc, columns, k, budget),
                },
            ),
            _ => Err(Stop::Fault(())),
        },
        JobState::Body { draft } => body_step(draft, line),
        JobState::End { draft: _ } => Err(Stop::Fault(())),
    }
}
