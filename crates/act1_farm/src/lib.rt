//! Channels searched by helpers whose answers are never trusted.
#![tactic(auto)]

mod answering;
mod asking;
mod course;
mod deciding;
mod event;
mod farm;
mod helping;
mod laws;
mod outcome;
mod usable;

pub use answering::verdicts;
pub use event::{Event, JobState};
pub use farm::Farm;
pub use laws::{done_stays, each_has_one_state, stories_are_accepted, taken_by_usable};
pub use outcome::{FarmStop, Outcome, Tally};
