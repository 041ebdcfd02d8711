//! Netlists whose outputs and latch inputs may be constants, and their cleanup.
#![tactic(auto)]

mod build;
mod cleanup;
mod copies;
mod gate;
mod key;
mod left;
mod marks;
mod net;
mod pass;
mod places;
mod settling;
mod table;
mod unchanged;

pub use cleanup::clean;
pub use net::{Net, NetTerm};
pub use unchanged::plain;
