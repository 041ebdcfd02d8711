//! Waves of firings in the time of what changes: an engine that fires a module only where one of its
//! sources has changed since it last fired.
#![tactic(auto)]

mod engine;
mod marks;
mod rounds;
mod setting;
mod wiring;

pub use engine::Engine;
