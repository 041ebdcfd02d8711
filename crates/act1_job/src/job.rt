use act1_channel::Problem;

/// The problem of a channel, and the budget of the search for it.
#[derive(Drop)]
pub struct Job {
    /// The problem.
    pub problem: Problem,
    /// The most conflicts of the search, 1 to 1,000,000,000,000.
    pub budget: u64,
}
