use act1_base::Items;
use act1_channel::Step;
use act1_plan::{Plan, PlanLine, PlanState};

/// A line of the text of a report.
#[derive(Drop)]
pub enum ReportLine {
    /// `act1 report 1`
    Header,
    /// A line of the text of the plan.
    Plan {
        /// The line.
        line: PlanLine,
    },
    /// `channel N`
    Channel {
        /// The channel.
        channel: u8,
    },
    /// `step CHOICE .. : HINT ..`
    Step {
        /// The step.
        step: Step,
    },
    /// `end`
    End,
}

/// What the lines say so far from `channel` on: a report of whose log only the steps are kept.
#[derive(Drop)]
pub struct Draft {
    /// The plan.
    pub plan: Plan,
    /// The channel.
    pub channel: u8,
    /// The steps of the refutation.
    pub steps: Items<Step>,
}

/// What the lines say so far, by the line that was read last.
#[derive(Drop)]
pub enum ReportState {
    /// There were none.
    Start,
    /// The header, or a line of the plan.
    Plan {
        /// What the lines of the plan say so far.
        plan: PlanState,
    },
    /// `channel`, or a step behind it.
    Log {
        /// The report so far.
        draft: Draft,
    },
    /// `end`.
    End {
        /// The report.
        draft: Draft,
    },
}
