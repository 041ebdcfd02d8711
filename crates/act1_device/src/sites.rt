ghost use Rattle.std.specs.Prelude.{◌≡◌, ◌↔◌, IsTrue, ◌<◌, ◌≤◌, ◌+◌, length, slice_index_or, [], count_by, nat_le};
ghost use Rattle.act1_device.specs.Sites.{tracks_of, breaks_of, segment_at, pin_channel, long_at, pad_at, HasLine, column_of, Meets, Crosses, IsSite, ends_of};

use crate::device::{Device, Line, Site, Track, Wire};
use act1_base::Items;

// Whether the pin of a module leads into the channel.
fn pin_crosses(device: &Device, row: u8, column: u8, pin: u8, channel: u8) -> bool
    ensures { IsTrue result ↔ (((row < device.now.rows) × (column < device.now.columns) × (pin < 8)) × (channel ≡ pin_channel device.now row pin)) }
{
    if row >= device.rows || column >= device.columns || pin >= 8 {
        return false;
    }
    if device.pins[usize::from(pin)] {
        channel == row + 1
    } else {
        channel == row
    }
}

// Whether the output of a module crosses the channel.
fn out_crosses(device: &Device, row: u8, column: u8, channel: u8) -> bool
    ensures { IsTrue result ↔ (((row < device.now.rows) × (column < device.now.columns)) × ((row ≤ channel + device.now.below) × (channel ≤ row + 1 + device.now.above) × (channel ≤ device.now.rows))) }
{
    let below = u16::from(device.below);
    let above = u16::from(device.above);
    row < device.rows
        && column < device.columns
        && u16::from(row) <= u16::from(channel) + below
        && u16::from(channel) <= u16::from(row) + 1 + above
        && channel <= device.rows
}

// Whether the long wire of a column crosses the channel.
fn long_crosses(device: &Device, column: u8, index: u8, channel: u8) -> bool
    ensures { IsTrue result ↔ (((column < device.now.columns) × (index < length device.now.longs)) × (((long_at device.now index).low ≤ channel) × (channel ≤ (long_at device.now index).high))) }
{
    match device.longs.get(usize::from(index)) {
        Some(long) => column < device.columns && long.low <= channel && channel <= long.high,
        None => false,
    }
}

// Whether the pad is in the channel.
fn pad_crosses(device: &Device, pad: u16, channel: u8) -> bool
    ensures { IsTrue result ↔ ((pad < length device.now.pads) × (channel ≡ (pad_at device.now pad).channel)) }
{
    match device.pads.get(usize::from(pad)) {
        Some(place) => channel == place.channel,
        None => false,
    }
}

impl Device {
    /// Whether a line crosses a channel: a pin crosses the channel that it leads into, an output those
    /// from `below` under its row to `above` over it, a long wire those from `low` to `high`, and a pad
    /// its own. It is false for a line or a channel that the device hasn't. It takes no memory.
    pub fn crosses(&self, line: Line, channel: u8) -> bool
        ensures { IsTrue result ↔ Crosses self.now line channel }
    {
        match line {
            Line::Pin { row, column, pin } => pin_crosses(self, row, column, pin, channel),
            Line::Out { row, column } => out_crosses(self, row, column, channel),
            Line::Long { column, index } => long_crosses(self, column, index, channel),
            Line::Pad { pad } => pad_crosses(self, pad, channel),
        }
    }

    /// The column of a line that the device has. It takes no memory.
    pub fn column_of(&self, line: Line) -> u8
        requires { HasLine self.now line }
        ensures { result ≡ column_of self.now line }
    {
        match line {
            Line::Pin { column, .. } => column,
            Line::Out { column, .. } => column,
            Line::Long { column, .. } => column,
            Line::Pad { pad } => {
                let pads = self.pads.as_slice();
                pads[usize::from(pad)].column
            }
        }
    }

    // The signal tracks of a channel, each as its breaks: a single entry serves every channel.
    fn tracks_of(&self, channel: u8) -> &[Items<u8>]
        ensures { result.now ≡ tracks_of self.now channel }
    {
        if self.tracks.len() == 1 {
            entry_or_empty(self.tracks.as_slice(), 0)
        } else {
            entry_or_empty(self.tracks.as_slice(), usize::from(channel))
        }
    }

    // Where a signal track is cut.
    fn breaks_of(&self, channel: u8, track: u8) -> &[u8]
        requires { track < length (tracks_of self.now channel) }
        ensures { result.now ≡ breaks_of self.now channel track }
    {
        self.tracks_of(channel)[usize::from(track)].as_slice()
    }

    /// The number of the segment of a channel's signal track at a column, from 0: as many breaks are at
    /// most the column. It takes no memory.
    pub fn segment_at(&self, channel: u8, track: u8, column: u8) -> u8
        requires { track < length (tracks_of self.now channel) }
        ensures { result ≡ segment_at self.now channel track column }
    {
        count_up_to(self.breaks_of(channel, track), column) as u8
    }

    /// Whether an antifuse may stand at the site. It is false for a site of another device. It takes no
    /// memory.
    pub fn is_site(&self, site: Site) -> bool
        ensures { IsTrue result ↔ IsSite self.now site }
    {
        match site {
            Site::Along {
                channel,
                track,
                index,
            } => is_along(self, channel, track, index),
            Site::Cross {
                channel,
                track,
                line,
            } => { self.crosses(line, channel) && meets(self, channel, track, line) }
        }
    }

    /// The two wires that the antifuse of a site joins: two segments of one track that meet, or a line
    /// and the wire of the track that it crosses, at the line's column. It takes no memory.
    pub fn ends(&self, site: Site) -> (Wire, Wire)
        requires { IsSite self.now site }
        ensures { result ≡ ends_of self.now site }
    {
        match site {
            Site::Along {
                channel,
                track,
                index,
            } => (
                Wire::Seg {
                    channel,
                    track,
                    index,
                },
                Wire::Seg {
                    channel,
                    track,
                    index: index + 1,
                },
            ),
            Site::Cross {
                channel,
                track,
                line,
            } => {
                let other = match track {
                    Track::Signal(t) => Wire::Seg {
                        channel,
                        track: t,
                        index: self.segment_at(channel, t, self.column_of(line)),
                    },
                    Track::Gnd => Wire::Gnd,
                    Track::Vcc => Wire::Vcc,
                    Track::Clk => Wire::Clk,
                };
                (Wire::Vertical(line), other)
            }
        }
    }
}

// One of some lists, or an empty one past the last.
fn entry_or_empty<T>(lists: &[Items<T>], at: usize) -> &[T]
    ensures { result.now ≡ slice_index_or lists.now at [] }
{
    match lists.get(at) {
        Some(list) => list.as_slice(),
        None => &[],
    }
}

// How many of some breaks are at most the column.
fn count_up_to(breaks: &[u8], column: u8) -> usize
    ensures count { result ≡ count_by (λ b. nat_le b column) breaks.now }
    ensures few { result ≤ length breaks.now }
{
    breaks.iter().filter(|b| **b <= column).count()
}

// Whether two segments of a track meet there.
fn is_along(device: &Device, channel: u8, track: u8, index: u8) -> bool
    ensures { IsTrue result ↔ ((channel ≤ device.now.rows) × (track < length (tracks_of device.now channel)) × (index < length (breaks_of device.now channel track))) }
{
    if channel > device.rows {
        return false;
    }
    match device.tracks_of(channel).get(usize::from(track)) {
        Some(breaks) => usize::from(index) < breaks.len(),
        None => false,
    }
}

// Whether an antifuse may join a line that crosses a channel to this track of it: signal tracks meet
// each line, and of ground, power and clock pins meet all, and pads ground and power.
fn meets(device: &Device, channel: u8, track: Track, line: Line) -> bool
    ensures { IsTrue result ↔ Meets device.now channel track line }
{
    match (track, line) {
        (Track::Signal(t), _) => usize::from(t) < device.tracks_of(channel).len(),
        (Track::Gnd | Track::Vcc | Track::Clk, Line::Pin { .. }) => true,
        (Track::Gnd | Track::Vcc, Line::Pad { .. }) => true,
        _ => false,
    }
}
