ghost use Rattle.std.specs.Prelude.{◌≡◌};
ghost use Rattle.act1_base.specs.Texts.{Gives};
ghost use Rattle.act1_report.specs.Steps as steps;

use crate::line::{Draft, ReportLine, ReportState};
use act1_base::{Items, Stop};
use act1_channel::Step;
use act1_logtext::add_step;
use act1_plan::{PlanLine, PlanState, plan_step};
use std::alloc::Global;

// What a line of the plan does behind those before it.
fn plan_more(alloc: Global, plan: PlanState, line: PlanLine) -> Result<ReportState, Stop<()>>
    ensures { Gives result (steps.plan_more plan line) }
{
    let plan = plan_step(alloc, plan, line)?;
    Ok(ReportState::Plan { plan })
}

// What `channel` does behind the lines of a plan.
fn with_channel(alloc: Global, plan: PlanState, channel: u8) -> Result<ReportState, Stop<()>>
    ensures { Gives result (steps.with_channel plan channel) }
{
    match plan {
        PlanState::Body { plan } => Ok(ReportState::Log {
            draft: Draft {
                plan,
                channel,
                steps: Items::new(alloc),
            },
        }),
        _ => Err(Stop::Fault(())),
    }
}

// What a line does behind the header or a line of the plan.
fn behind_plan(alloc: Global, plan: PlanState, line: ReportLine) -> Result<ReportState, Stop<()>>
    ensures { Gives result (steps.behind_plan plan line) }
{
    match line {
        ReportLine::Plan { line } => plan_more(alloc, plan, line),
        ReportLine::Channel { channel } => with_channel(alloc, plan, channel),
        _ => Err(Stop::Fault(())),
    }
}

// What a step does behind `channel` or a step.
fn with_step(draft: Draft, step: Step) -> Result<ReportState, Stop<()>>
    ensures { Gives result (steps.with_step draft step) }
{
    let Draft {
        plan,
        channel,
        steps,
    } = draft;
    let steps = add_step(steps, step)?;
    Ok(ReportState::Log {
        draft: Draft {
            plan,
            channel,
            steps,
        },
    })
}

// What a line does behind `channel` or a step.
fn behind_channel(draft: Draft, line: ReportLine) -> Result<ReportState, Stop<()>>
    ensures { Gives result (steps.behind_channel draft line) }
{
    match line {
        ReportLine::Step { step } => with_step(draft, step),
        ReportLine::End => Ok(ReportState::End { draft }),
        _ => Err(Stop::Fault(())),
    }
}

/// The state after a line more, or the one fault that a line can have.
pub(crate) fn step(
    alloc: Global,
    state: ReportState,
    line: ReportLine,
) -> Result<ReportState, Stop<()>>
    ensures { Gives result (steps.step state line) }
{
    match state {
        ReportState::Start => match line {
            ReportLine::Header => Ok(ReportState::Plan {
                plan: PlanState::Start,
            }),
            _ => Err(Stop::Fault(())),
        },
        ReportState::Plan { plan } => behind_plan(alloc, plan, line),
        ReportState::Log { draft } => behind_channel(draft, line),
        ReportState::End { .. } => Err(Stop::Fault(())),
    }
}
