//! The antifuse file of a plan whose connections have tracks.
#![tactic(auto)]

mod emission;
mod file;
mod laws;
mod place;
mod rails;
mod signals;

pub use emission::emit;
pub use laws::files_realize;
