//! Directed graphs of numbered vertices: an order in which each vertex stands after those that it
//! reads, or the first vertex on a ring.
#![tactic(auto)]

mod graph;
mod laws;
mod order;
mod ordering;
mod reach;
mod readers;
mod search;
mod sorted;

pub use laws::rings_and_levels;
pub use order::sources_first;
pub use ordering::Ordering;
pub use reach::reached_from;
