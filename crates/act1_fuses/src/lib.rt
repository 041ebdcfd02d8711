//! Antifuse files: which antifuses of a device are programmed, and what the array then is.
#![tactic(auto)]

mod fault;
mod fault_line;
mod form;
mod fuses;
mod given;
mod laws;
mod lines;
mod read;
mod reader;
mod step;
mod write;

pub use fault::{FuseFault, FuseKind};
pub use fault_line::write_fuse_fault;
pub use fuses::{FuseFile, Port, StartAt};
pub use laws::{fuse_texts_are_exact, one_circuit};
pub use read::read_fuses;
pub use write::write_fuses;
