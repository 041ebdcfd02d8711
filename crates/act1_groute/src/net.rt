use act1_base::Items;
use act1_circuit::Source;
use act1_device::Line;

/// What a source drives: a pin of a module or the pad of an output.
#[derive(Clone, Copy, Debug, PartialEq, Eq)]
pub struct Sink {
    /// The source.
    pub source: Source,
    /// The line of the pin or of the pad.
    pub line: Line,
    /// The channel that it is in.
    pub channel: u8,
}

/// A long wire of a column.
#[derive(Clone, Copy, Debug, PartialEq, Eq)]
pub struct LongWire {
    /// The column.
    pub column: u8,
    /// Its number among the long wires of the column.
    pub index: u8,
}

/// A long wire that a net has taken.
#[derive(Clone, Copy, Debug, PartialEq, Eq)]
pub struct Take {
    /// The net, by its source.
    pub net: Source,
    /// The long wire.
    pub wire: LongWire,
    /// The channel in which the wire is joined to the net's source.
    pub home: u8,
}

/// A net with its sinks.
#[derive(Debug, Drop)]
pub struct Net {
    /// The source.
    pub source: Source,
    /// The sinks, in the order of all sinks.
    pub sinks: Items<Sink>,
}
