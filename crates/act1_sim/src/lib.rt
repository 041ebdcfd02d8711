//! Simulation of an array, by its device and its antifuse file alone, where modules fire in site
//! order.
#![tactic(auto)]

mod begin;
mod cycle;
mod fault;
mod fault_line;
mod laws;
mod simulation;
mod vectors;

pub use fault::SimFault;
pub use fault_line::write_sim_fault;
pub use laws::one_answer;
pub use simulation::simulate;
