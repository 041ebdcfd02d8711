//! Routes of plans: which long wires the nets of a plan take, its connections in each channel, the problems of the
//! channels, and the sites that a plan with tracks for its connections has.
#![tactic(auto)]

mod connections;
mod laws;
mod net;
mod nets;
mod problem;
mod reach;
mod routing;
mod sinks;
mod stop;
mod takes;
mod taking;
mod wiring;

pub use laws::{emitted_is_one, problems_fit};
pub use problem::problem_of;
pub use routing::routes;
pub use stop::RouteStop;
pub use wiring::{Routes, Wiring};
