//! The netlist that an array is extracted to, by a device and an antifuse file alone.
#![tactic(auto)]

mod clashes;
mod counts;
mod covers;
mod extraction;
mod fault;
mod fault_line;
mod latches;
mod laws;
mod layout;
mod names;
mod net;
mod nodes;
mod outputs;
mod plan;
mod sources;
mod values;

pub use extraction::extract;
pub use fault::{ExtractFault, FormKind};
pub use fault_line::write_extract_fault;
pub use laws::{formed_are_extracted, one_answer};
