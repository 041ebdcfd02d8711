//! The checker of refutations. It knows nothing of the search that wrote them.
#![tactic(auto)]

mod checker;
mod fault;
mod hints;
mod status;
mod steps;

pub use checker::check;
pub use fault::CheckFault;
