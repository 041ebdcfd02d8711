//! Segmented channels: connections that want a track each, and the steps of a refutation.
#![tactic(auto)]

mod assignment;
mod laws;
mod problem;
mod segments;
mod trail;

pub use laws::{accepted_logs_refute, segments_are_those_between};
pub use problem::{Choice, Connection, Hint, Log, Problem, Step};
pub use trail::{Entry, Trail};
