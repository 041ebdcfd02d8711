//! Netlists as BLIF has them: latches and covers between signals, what they show, and their one text.
#![tactic(auto)]

mod blif;
mod laws;
mod names;
mod text;
mod valuation;

pub use blif::{Blif, Latch, Node};
pub use laws::{
    latch_names_differ, netlists_are_whole, one_valuation, ports_are_few, valuations_have_signals,
};
pub use names::signal_name;
pub use text::blif_text;
pub use valuation::{order_of, values};
