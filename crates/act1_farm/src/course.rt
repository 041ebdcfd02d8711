use act1_base::Items;
use act1_search::Verdict;

/// A helper that was started.
#[derive(Clone, Copy, PartialEq, Eq)]
pub struct Started {
    /// Its ticket.
    pub ticket: u64,
    /// Which of the problems with connections it has, from 0.
    pub number: u16,
}

/// The asking so far.
#[derive(Drop)]
pub struct Course {
    /// All helpers that were started, in order.
    pub started: Items<Started>,
    /// How many of them are finished.
    pub done: usize,
    /// How many problems were asked for.
    pub asked: u16,
    /// How many starts and finishes failed.
    pub faults: u32,
    /// What was found for each problem with connections.
    pub answers: Items<Option<Verdict>>,
}
