//! The reader of BLIF: the statements of a text, as `act1_bliftext` reads them, to its netlist or its first
//! fault.
#![tactic(auto)]

mod clocks;
mod graph;
mod laws;
mod marks;
mod netlist;
mod places;
mod signals;
mod text;
mod twice;
mod whole;

pub use act1_bliftext::{BlifFault, BlifKind};
pub use laws::{blif_texts_are_exact, canonical_text_is_read_back, netlists_are_exact};
pub use text::read_blif;
pub use whole::netlist_of;
