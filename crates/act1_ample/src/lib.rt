//! Ample devices: what makes it true that a netlist is routed on a device, whatever the seed, the segments a connection
//! may occupy and the budget of the searches.
#![tactic(auto)]

mod laws;

pub use laws::{ample_plans_route, answers_are_sure, wide_devices_route, wide_is_calm};
