use act1_base::{Items, Name};
use act1_circuit::Spot;
use act1_device::Site;

/// An input or an output of the array: its pad, by number, and its name.
#[derive(Debug, Drop)]
pub struct Port {
    /// The pad, by number.
    pub pad: u16,
    /// The name.
    pub name: Name,
}

/// The module that holds a latch's value: its spot, and the latch's declared init (0 to 3) and name.
#[derive(Debug, Drop)]
pub struct StartAt {
    /// Where the module stands.
    pub spot: Spot,
    /// The latch's declared init.
    pub init: u8,
    /// The latch's name.
    pub name: Name,
}

/// An antifuse file: the name of its device, the clock's name if it has one, the inputs and the
/// outputs in the netlist's order, the starts by rising spot, and the sites of all antifuses that
/// are programmed, in the order of sites.
#[derive(Debug, Drop)]
pub struct FuseFile {
    /// The device's name.
    pub device: Name,
    /// The clock's name, if it has one.
    pub clock: Option<Name>,
    /// The inputs.
    pub ins: Items<Port>,
    /// The outputs.
    pub outs: Items<Port>,
    /// The modules that hold latches.
    pub starts: Items<StartAt>,
    /// The sites of the programmed antifuses.
    pub sites: Items<Site>,
}
