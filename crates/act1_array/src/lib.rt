//! Which circuit an array is, by a device and an antifuse file alone.
#![tactic(auto)]

mod circuit;
mod classes;
mod fault;
mod fault_line;
mod laws;
mod modules;
mod network;
mod outputs;
mod owners;
mod spots;
mod starts;

pub use circuit::circuit_of;
pub use fault::ArrayFault;
pub use fault_line::write_array_fault;
pub use laws::one_answer;
