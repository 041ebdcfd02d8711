use act1_channel::Log;
use act1_plan::Plan;

/// That a plan can't be routed: one of its channels, and a refutation of the problem that the plan sets there.
#[derive(Drop)]
pub struct Report {
    /// The plan.
    pub plan: Plan,
    /// The channel, by its number from 0.
    pub channel: u8,
    /// The refutation of the channel's problem.
    pub log: Log,
}
