//! The reader of device files, over the TOML documents that the crate `toml` states.
#![tactic(auto)]

mod device;
mod fault;
mod fault_line;
mod keys;
mod kinds;
mod laws;
mod lists;
mod places;
mod ranges;
mod read;
mod tracks;
mod values;

pub use fault::{DeviceFault, DeviceKind};
pub use fault_line::write_device_fault;
pub use laws::texts_are_exact;
pub use read::read_device;
