//! Circuits of logic modules, how their modules fire, and latches that are made of two modules.
#![tactic(auto)]

mod circuit;
mod faults;
mod firing;
mod forms;
mod laws;
mod masters;
mod pairs;
mod readers;
mod source_word;

pub use circuit::{Circuit, Output, Placed, Source, Spot, Start};
pub use firing::{fire, settle, value_of};
pub use forms::pair_form;
pub use laws::{each_cycle, every_order, forms_are_exact, pairs_are_clocked};
pub use pairs::{FormFault, Pair, PairForm};
pub use source_word::add_source;
