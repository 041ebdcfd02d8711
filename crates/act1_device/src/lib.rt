//! Devices: rows of modules between channels of segmented tracks, and the sites where an antifuse
//! may stand.
#![tactic(auto)]

mod device;
mod laws;
mod pins;
mod sites;

pub use device::{Device, Line, Long, PadPlace, Site, Track, Wire};
pub use laws::devices_are_small;
pub use pins::name_of_pin;
