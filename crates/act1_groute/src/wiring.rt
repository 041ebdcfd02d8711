use act1_base::Items;
use act1_circuit::Source;
use act1_device::Line;

/// A connection of a channel: the lines of one net that are joined there.
#[derive(Debug, Drop)]
pub struct Wiring {
    /// The net, by its source.
    pub net: Source,
    /// The least column of the lines.
    pub left: u8,
    /// The greatest column of the lines.
    pub right: u8,
    /// The lines: the net's sinks, the pins by module and pin and then the outputs by number; its source, where that
    /// covers the channel; and long wires in the order in which the net took them.
    pub lines: Items<Line>,
}

/// The connections of a plan that is routed.
#[derive(Debug, Drop)]
pub struct Routes {
    /// The connections of each channel, from channel 0 on, in the order of nets: inputs, then modules.
    pub channels: Items<Items<Wiring>>,
}
