ghost use Rattle.std.specs.Prelude.{IsTrue};
ghost use Rattle.act1_device.specs.Rules.{is_device};

use act1_base::{Items, Name};

/// A long vertical wire that every column has: it crosses the channels from `low` to `high`.
#[derive(Clone, Copy, Debug, PartialEq, Eq)]
pub struct Long {
    /// The lowest channel that it crosses.
    pub low: u8,
    /// The highest channel that it crosses.
    pub high: u8,
}

/// Where a pad is: it crosses one channel, in one column.
#[derive(Clone, Copy, Debug, PartialEq, Eq)]
pub struct PadPlace {
    /// The channel that it is in.
    pub channel: u8,
    /// The column that it is in.
    pub column: u8,
}

/// A row-based array. Row r lies between the channels r and r + 1, so there is one channel more
/// than rows. `pins` says of each pin, in the order A0, A1, SA, B0, B1, SB, S0, S1, whether it leads
/// up (into channel r + 1) or down (into channel r). A module's output crosses `below` further
/// channels downwards and `above` upwards.
///
/// `tracks` has the breaks of each signal track of each channel, or one entry that serves every
/// channel: breaks b1, b2, .. cut a track into the segments of columns 0 to b1 - 1, b1 to b2 - 1 and
/// so on. Pads are numbered in the order of `pads`.
///
/// A device keeps the rules of the device file: a name of 1 to 64 letters, digits, `_` and `-`, 1 to
/// 32 rows, 2 to 64 columns, `below` and `above` at most 32, 1 to 64 tracks a channel with rising
/// breaks inside the columns, at most 32 long wires with `low` below `high` and `high` at most rows,
/// and pads inside the array of which no two are at one place.
#[derive(Debug, Drop)]
pub struct Device {
    /// The device's name.
    pub name: Name,
    /// How many rows of modules it has.
    pub rows: u8,
    /// How many columns it has.
    pub columns: u8,
    /// Whether each pin leads up.
    pub pins: [bool; 8],
    /// How many further channels an output crosses downwards.
    pub below: u8,
    /// How many further channels an output crosses upwards.
    pub above: u8,
    /// The breaks of each signal track, for all channels or for each.
    pub tracks: Items<Items<Items<u8>>>,
    /// The long wires of each column.
    pub longs: Items<Long>,
    /// The places of the pads, in the order of their numbers.
    pub pads: Items<PadPlace>,
    pub ghost valid: { IsTrue (is_device name rows columns below above tracks longs pads) },
}

/// A track of a channel: one of its signal tracks, by number, or ground, power or the clock.
#[derive(Clone, Copy, Debug, PartialEq, Eq)]
pub enum Track {
    /// The signal track of this number.
    Signal(u8),
    /// The ground track.
    Gnd,
    /// The power track.
    Vcc,
    /// The clock track.
    Clk,
}

/// A vertical line: an input pin of a module, a module's output, a long wire of a column, or a pad.
#[derive(Clone, Copy, Debug, PartialEq, Eq, Hash)]
pub enum Line {
    /// The pin of this number, 0 to 7, of the module at a row and column.
    Pin { row: u8, column: u8, pin: u8 },
    /// The output of the module at a row and column.
    Out { row: u8, column: u8 },
    /// The long wire of this number in a column.
    Long { column: u8, index: u8 },
    /// The pad of this number.
    Pad { pad: u16 },
}

/// A place where an antifuse may stand: along a track, between the segments `index` and
/// `index + 1`, or where a line crosses a track.
#[derive(Clone, Copy, Debug, PartialEq, Eq)]
pub enum Site {
    /// Between the segments `index` and `index + 1` of a channel's signal track.
    Along {
        channel: u8,
        track: u8,
        index: u8,
    },
    /// Where a line crosses a track of a channel.
    Cross {
        channel: u8,
        track: Track,
        line: Line,
    },
}

/// A wire: the ground, power or clock track, which each run through all channels as one wire, a
/// segment of a signal track, or a vertical line.
#[derive(Clone, Copy, Debug, PartialEq, Eq, Hash)]
pub enum Wire {
    /// The ground track.
    Gnd,
    /// The power track.
    Vcc,
    /// The clock track.
    Clk,
    /// A segment, by number, of a channel's signal track.
    Seg { channel: u8, track: u8, index: u8 },
    /// A vertical line.
    Vertical(Line),
}
