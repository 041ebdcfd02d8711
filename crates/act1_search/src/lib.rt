//! The ordered clause search of a channel: what follows from choices, watched as they are taken and taken back.
#![tactic(auto)]

mod course;
mod descent;
mod explain;
mod laws;
mod propagate;
mod verdict;
mod watch;

pub use course::search;
pub use laws::{
    answers_are_exact, conflicts_are_few, searches_are_one, steps_tell_one_fact,
    taking_back_is_the_search,
};
pub use verdict::{SearchStop, Verdict};
pub use watch::Watch;
