ghost use Rattle.std.specs.Prelude.{◌≡◌, ◌&&◌, ◌+◌, ◌-◌, min, nat_le, slice_index_or};
ghost use Rattle.act1_device.specs.Sites.{column_of, long_at, pad_at};
ghost use Rattle.act1_groute.specs.Nets.{covers, highest, lowest, source_line};
ghost use Rattle.act1_groute.specs.Routes.{distance, long_line, nearest};

use crate::net::LongWire;
use act1_circuit::{Source, Spot};
use act1_device::{Device, Line, Long, PadPlace};
use act1_plan::Plan;

// The channels from the lowest to the highest that a line crosses.
#[derive(Clone, Copy)]
struct Reach {
    low: u8,
    high: u8,
}

// Whether the reach has the channel.
fn has(reach: Reach, channel: u8) -> bool
    ensures { result ≡ (nat_le reach.low channel && nat_le channel reach.high) }
{
    reach.low <= channel && channel <= reach.high
}

// The long wire of a number.
fn long_at(device: &Device, index: u8) -> Long
    ensures { result ≡ long_at device.now index }
{
    match device.longs.as_slice().get(usize::from(index)) {
        Some(long) => *long,
        None => Long { low: 0, high: 0 },
    }
}

// The place of a pad.
pub(crate) fn pad_at(device: &Device, pad: u16) -> PadPlace
    ensures { result ≡ pad_at device.now pad }
{
    match device.pads.as_slice().get(usize::from(pad)) {
        Some(place) => *place,
        None => PadPlace {
            channel: 0,
            column: 0,
        },
    }
}

// The spot of a module.
fn spot_at(spots: &[Spot], number: u16) -> Spot
    ensures { result ≡ slice_index_or spots.now number (record { row = 0; column = 0 }) }
{
    match spots.get(usize::from(number)) {
        Some(spot) => *spot,
        None => Spot { row: 0, column: 0 },
    }
}

/// The source line of a net: the pad of an input, or the output of a module.
pub(crate) fn source_line(plan: &Plan, net: Source) -> Line
    ensures { result ≡ source_line plan.now net }
{
    match net {
        Source::Input(input) => Line::Pad { pad: input },
        Source::Module(number) => {
            let spot = spot_at(plan.placed.spots.as_slice(), number);
            Line::Out {
                row: spot.row,
                column: spot.column,
            }
        }
        Source::Zero | Source::One | Source::Clock => Line::Pad { pad: 0 },
    }
}

// The lesser of the two numbers.
fn lesser(a: u16, b: u8) -> u8
    ensures { result ≡ min a b }
{
    if a < u16::from(b) { a as u8 } else { b }
}

// What the output of a module in a row reaches.
fn out_reach(device: &Device, row: u8) -> Reach
    ensures low { result.low ≡ row - device.now.below }
    ensures high { result.high ≡ min (row + 1 + device.now.above) device.now.rows }
{
    let above = device.above;
    let most = device.rows;
    let high = u16::from(row) + 1 + u16::from(above);
    Reach {
        low: row.saturating_sub(device.below),
        high: lesser(high, most),
    }
}

// What a pad reaches.
fn pad_reach(device: &Device, pad: u16) -> Reach
    ensures low { result.low ≡ (pad_at device.now pad).channel }
    ensures high { result.high ≡ (pad_at device.now pad).channel }
{
    let channel = pad_at(device, pad).channel;
    Reach {
        low: channel,
        high: channel,
    }
}

// What the source line of a net reaches.
fn source_reach(device: &Device, plan: &Plan, net: Source) -> Reach
    ensures low { result.low ≡ lowest device.now (source_line plan.now net) }
    ensures high { result.high ≡ highest device.now (source_line plan.now net) }
{
    match net {
        Source::Input(input) => pad_reach(device, input),
        Source::Module(number) => {
            out_reach(device, spot_at(plan.placed.spots.as_slice(), number).row)
        }
        Source::Zero | Source::One | Source::Clock => pad_reach(device, 0),
    }
}

/// Whether the source line of a net covers the channel.
pub(crate) fn source_covers(device: &Device, plan: &Plan, net: Source, channel: u8) -> bool
    ensures { result ≡ covers device.now (source_line plan.now net) channel }
{
    has(source_reach(device, plan, net), channel)
}

/// The channel, of those that the source line of a net covers, that is nearest to one that it doesn't cover.
pub(crate) fn nearest(device: &Device, plan: &Plan, net: Source, channel: u8) -> u8
    ensures { result ≡ nearest device.now (source_line plan.now net) channel }
{
    let reach = source_reach(device, plan, net);
    if channel < reach.low {
        reach.low
    } else {
        reach.high
    }
}

/// Whether the long wire crosses the channel.
pub(crate) fn wire_covers(device: &Device, wire: LongWire, channel: u8) -> bool
    ensures { result ≡ covers device.now (long_line wire) channel }
{
    let long = long_at(device, wire.index);
    long.low <= channel && channel <= long.high
}

/// The column of a line.
pub(crate) fn column_of(device: &Device, line: Line) -> u8
    ensures { result ≡ column_of device.now line }
{
    match line {
        Line::Pin { column, .. } => column,
        Line::Out { column, .. } => column,
        Line::Long { column, .. } => column,
        Line::Pad { pad } => pad_at(device, pad).column,
    }
}

/// The column of the source line of a net.
pub(crate) fn source_column(device: &Device, plan: &Plan, net: Source) -> u8
    ensures { result ≡ column_of device.now (source_line plan.now net) }
{
    column_of(device, source_line(plan, net))
}

/// How far two columns are from one another.
pub(crate) fn distance(a: u8, b: u8) -> u8
    ensures { result ≡ distance a b }
{
    if a < b { b - a } else { a - b }
}
