//! What it says that a circuit means a netlist: in every order in which its modules fire, from every
//! state in which the netlist may begin, it shows what the netlist shows.
#![tactic(auto)]

mod laws;

pub use laws::{
    array_net_means, carrying_means, constants_mean, each_state_is_met, every_order_is_enough,
};
