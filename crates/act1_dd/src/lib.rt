//! Reduced ordered binary decision diagrams: two refs of one store are the same exactly where they
//! have the same value at all inputs.
#![tactic(auto)]

mod build;
mod count;
mod cover;
mod diagrams;
mod fault;
mod laws;
mod number;
mod refs;

pub use diagrams::Diagrams;
pub use fault::DdFault;
pub use refs::{Branch, Ref};
