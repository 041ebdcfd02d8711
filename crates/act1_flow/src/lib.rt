//! The flow from a netlist to an antifuse file as one function over values.
#![tactic(auto)]

mod answer;
mod assigning;
mod laws;
mod mapping;
mod planning;
mod stages;

pub use answer::{FlowStop, Routed, Settings};
pub use laws::flow_is_sure;
pub use stages::flow;
