//! Placement: where the modules of a circuit stand on a device, by the sum of the half perimeters of its nets.
#![tactic(auto)]

mod changes;
mod ends;
mod gains;
mod laws;
mod net;
mod nets;
mod placement;
mod placing;
mod reaches;
mod start;
mod sums;

pub use gains::Gains;
pub use laws::{exchanges_are_by_sums, kept_is_total, one_placement};
pub use placement::{PlaceStop, Placement};
pub use placing::place;
