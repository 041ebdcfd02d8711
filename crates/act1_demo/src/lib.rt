//! A counter in BLIF, and the lines that a netlist of one input shows.
#![tactic(auto)]

mod shown;
mod text;
mod wire;

pub use shown::demo_lines;
pub use text::demo_blif;
