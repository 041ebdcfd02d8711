use act1_base::Items;
use act1_channel::Step;

/// What the lines of an answer say so far: an answer of whose log only the steps are kept.
#[derive(Drop)]
pub enum Draft {
    /// A track for each connection.
    Assigned(Items<u16>),
    /// The steps of a refutation.
    Refuted(Items<Step>),
    /// The number of conflicts.
    Spent(u64),
}

/// A line of the text of an answer.
#[derive(Drop)]
pub enum AnswerLine {
    /// `act1 answer 1`
    Header,
    /// `assigned`
    Assigned,
    /// `take TRACK`
    Take(u16),
    /// `refuted`
    Refuted,
    /// `step CHOICE .. : HINT ..`
    Step(Step),
    /// `spent CONFLICTS`
    Spent(u64),
    /// `end`
    End,
}

/// What the lines say so far, by the line that was read last.
#[derive(Drop)]
pub enum AnswerState {
    /// There were none.
    Start,
    /// The header.
    Header,
    /// A line behind it.
    Body(Draft),
    /// `end`.
    End(Draft),
}
