use act1_base::Items;
use act1_channel::Log;

/// What a search of a channel answers.
#[derive(Drop)]
pub enum Answer {
    /// A track for each connection.
    Assigned(Items<u16>),
    /// A refutation: the connections have no tracks that fit.
    Refuted(Log),
    /// Neither, after so many conflicts.
    Spent(u64),
}
