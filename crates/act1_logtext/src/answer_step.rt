ghost use Rattle.std.specs.Prelude.{◌≡◌, [], ◌∷◌, ◌++◌, IfOk};
ghost use Rattle.act1_base.specs.Texts.{Gives};
ghost use Rattle.act1_logtext.specs.AnswerSteps as steps;

use crate::draft::{AnswerLine, AnswerState, Draft};
use crate::logs::add_step;
use act1_base::{Items, Memory, Stop};
use act1_channel::Step;
use std::alloc::Global;

// What a line does behind the header.
fn header_step(alloc: Global, line: AnswerLine) -> Result<AnswerState, Stop<()>>
    ensures { Gives result (steps.header_step line) }
{
    match line {
        AnswerLine::Assigned => Ok(AnswerState::Body(Draft::Assigned(Items::new(alloc)))),
        AnswerLine::Refuted => Ok(AnswerState::Body(Draft::Refuted(Items::new(alloc)))),
        AnswerLine::Spent(conflicts) => Ok(AnswerState::Body(Draft::Spent(conflicts))),
        _ => Err(Stop::Fault(())),
    }
}

// The tracks and one more.
fn one_track_more(mut tracks: Items<u16>, track: u16) -> Result<Items<u16>, Memory>
    ensures { IfOk result (λ more. more ≡ tracks ++ track ∷ []) }
{
    tracks.push(track)?;
    Ok(tracks)
}

// What a track does behind the lines of an answer.
fn with_track(draft: Draft, track: u16) -> Result<AnswerState, Stop<()>>
    ensures { Gives result (steps.with_track draft track) }
{
    match draft {
        Draft::Assigned(tracks) => {
            let tracks = one_track_more(tracks, track)?;
            Ok(AnswerState::Body(Draft::Assigned(tracks)))
        }
        _ => Err(Stop::Fault(())),
    }
}

// What a step does behind the lines of an answer.
fn with_step(draft: Draft, step: Step) -> Result<AnswerState, Stop<()>>
    ensures { Gives result (steps.with_step draft step) }
{
    match draft {
        Draft::Refuted(steps) => {
            let steps = add_step(steps, step)?;
            Ok(AnswerState::Body(Draft::Refuted(steps)))
        }
        _ => Err(Stop::Fault(())),
    }
}

// What a line does behind the lines of an answer.
fn body_step(draft: Draft, line: AnswerLine) -> Result<AnswerState, Stop<()>>
    ensures { Gives result (steps.body_step draft line) }
{
    match line {
        AnswerLine::Take(track) => with_track(draft, track),
        AnswerLine::Step(step) => with_step(draft, step),
        AnswerLine::End => Ok(AnswerState::End(draft)),
        _ => Err(Stop::Fault(())),
    }
}

/// The state after a line more, or the one fault that a line can have.
pub(crate) fn step(
    alloc: Global,
    state: AnswerState,
    line: AnswerLine,
) -> Result<AnswerState, Stop<()>>
    ensures { Gives result (steps.step state line) }
{
    match state {
        AnswerState::Start => match line {
            AnswerLine::Header => Ok(AnswerState::Header),
            _ => Err(Stop::Fault(())),
        },
        AnswerState::Header => header_step(alloc, line),
        AnswerState::Body(draft) => body_step(draft, line),
        AnswerState::End(_) => Err(Stop::Fault(())),
    }
}
