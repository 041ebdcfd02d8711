//! From nets to circuits.
#![tactic(auto)]

mod counting;
mod covers;
mod laws;
mod live;
mod mapping;
mod modules;
mod numbers;
mod pins;
mod reads;
mod sources;
mod tiles;

pub use counting::least;
pub use laws::{
    least_counts, mapped_has_own_sources, mapped_is_small, mapped_means, net_means_netlist,
};
pub use mapping::map;
