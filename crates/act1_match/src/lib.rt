//! Which functions of few variables one logic module can be, and by which pins.
#![tactic(auto)]

mod choice;
mod inputs;
mod module;
mod multiplexer;
mod pins;
mod selects;

pub use choice::PinChoice;
pub use inputs::ones_of;
pub use module::match_module;
