ghost use Rattle.std.specs.Prelude.{◌≡◌, ◌++◌, find, map, filter, length, IfOk, OnOk};
ghost use Rattle.std.specs.List.{list_any};
ghost use Rattle.act1_device.specs.Sites.{column_of};
ghost use Rattle.act1_base.specs.Lists.{greatest_number, least_number};
ghost use Rattle.act1_groute.specs.declared.net.Sink.{Sink as ASink};
ghost use Rattle.act1_groute.specs.Nets.{covers};
ghost use Rattle.act1_groute.specs.Routes.{long_line, wire_of, wiring_of};
ghost use Rattle.act1_groute.specs.RouteSteps.{connects, is_at_home, is_in, lines_with, source_lines, wiring_with, wirings_with};

use crate::net::{LongWire, Net, Sink, Take};
use crate::nets::needs;
use crate::reach::{column_of, source_covers, source_line, wire_covers};
use crate::wiring::Wiring;
use act1_base::{Items, Memory};
use act1_circuit::Source;
use act1_device::{Device, Line};
use act1_plan::Plan;
use std::alloc::Global;

// The line of a long wire.
fn long_line(wire: LongWire) -> Line
    ensures { result ≡ long_line wire }
{
    Line::Long {
        column: wire.column,
        index: wire.index,
    }
}

// Adds the lines of the sinks that are in the channel.
fn add_sinks(lines: &mut Vec<Line>, sinks: &[Sink], channel: u8) -> Result<(), Memory>
    ensures { OnOk result (lines.new.items ≡ lines.old.items ++ map (λ (s : ASink). s.line) (filter (is_in channel) sinks.now)) }
{
    for sink in sinks {
        if sink.channel == channel {
            lines.push(sink.line)?;
        }
    }
    Ok(())
}

// Adds the long wires that have the channel as home.
fn add_homes(lines: &mut Vec<Line>, own: &[Take], channel: u8) -> Result<(), Memory>
    ensures { OnOk result (lines.new.items ≡ lines.old.items ++ map wire_of (filter (is_at_home channel) own.now)) }
{
    for take in own {
        if take.home == channel {
            lines.push(long_line(take.wire))?;
        }
    }
    Ok(())
}

// The line of the first of these long wires that crosses the channel.
fn first_crossing(device: &Device, own: &[Take], channel: u8) -> Option<Line>
    ensures { result ≡ find (λ l. covers device.now l channel) (map wire_of own.now) }
{
    for take in own {
        if wire_covers(device, take.wire, channel) {
            return Some(long_line(take.wire));
        }
    }
    None
}

// Adds the source line, with the long wires that are joined to it, where it covers the channel, and else the long
// wire that serves the channel.
fn add_source(
    lines: &mut Vec<Line>,
    device: &Device,
    plan: &Plan,
    net: Source,
    own: &[Take],
    channel: u8,
) -> Result<(), Memory>
    ensures { OnOk result (lines.new.items ≡ lines.old.items ++ source_lines device.now plan.now net own.now channel) }
{
    if source_covers(device, plan, net, channel) {
        lines.push(source_line(plan, net))?;
        return add_homes(lines, own, channel);
    }
    match first_crossing(device, own, channel) {
        Some(line) => {
            lines.push(line)?;
            Ok(())
        }
        None => Ok(()),
    }
}

// The lines of a net's connection in a channel.
fn lines_in(
    alloc: Global,
    device: &Device,
    plan: &Plan,
    net: &Net,
    own: &[Take],
    channel: u8,
) -> Result<Vec<Line>, Memory>
    ensures { IfOk result (λ lines. lines.items ≡ lines_with device.now plan.now net.now own.now channel) }
{
    let mut lines = Vec::new(alloc);
    add_sinks(&mut lines, net.sinks.as_slice(), channel)?;
    add_source(&mut lines, device, plan, net.source, own, channel)?;
    Ok(lines)
}

// The least column of the lines.
#[tactic(auto, using(crate::proofs::ColumnSteps::least_first, crate::proofs::ColumnSteps::least_next))]
fn least_column(device: &Device, lines: &[Line]) -> u8
    ensures { result ≡ least_number (map (column_of device.now) lines.now) }
{
    let Some(first) = lines.first() else {
        return 0;
    };
    let mut least = column_of(device, *first);
    for line in lines {
        least = least.min(column_of(device, *line));
    }
    least
}

// The greatest column of the lines.
#[tactic(auto, using(crate::proofs::ColumnSteps::greatest_next))]
fn greatest_column(device: &Device, lines: &[Line]) -> u8
    ensures { result ≡ greatest_number (map (column_of device.now) lines.now) }
{
    let mut greatest = 0;
    for line in lines {
        greatest = greatest.max(column_of(device, *line));
    }
    greatest
}

// The connection of a net with these lines.
fn wiring_of(device: &Device, net: Source, lines: Vec<Line>) -> Wiring
    ensures { result ≡ wiring_of device.now net lines.items }
{
    Wiring {
        net,
        left: least_column(device, lines.as_slice()),
        right: greatest_column(device, lines.as_slice()),
        lines: Items::from_vec(lines),
    }
}

// Whether one of these long wires has the channel as home.
fn has_home(own: &[Take], channel: u8) -> bool
    ensures { result ≡ list_any (is_at_home channel) own.now }
{
    own.iter().any(|take| take.home == channel)
}

// Whether the net has a connection in the channel: it needs it, or a long wire of it has it as home.
fn connects(net: &Net, own: &[Take], channel: u8) -> bool
    ensures { result ≡ connects net.now own.now channel }
{
    needs(net.sinks.as_slice(), channel) || has_home(own, channel)
}

// Adds the connection of a net in the channel, if it has one.
fn add_wiring(
    wirings: &mut Vec<Wiring>,
    alloc: Global,
    device: &Device,
    plan: &Plan,
    net: &Net,
    own: &[Take],
    channel: u8,
) -> Result<(), Memory>
    ensures { OnOk result (wirings.new.items ≡ wirings.old.items ++ wiring_with device.now plan.now channel net.now own.now) }
{
    if !connects(net, own, channel) {
        return Ok(());
    }
    let lines = lines_in(alloc, device, plan, net, own, channel)?;
    wirings.push(wiring_of(device, net.source, lines))?;
    Ok(())
}

/// The connections of a channel, in the order of nets.
pub(crate) fn wirings_of(
    alloc: Global,
    device: &Device,
    plan: &Plan,
    nets: &[Net],
    owns: &[Items<Take>],
    channel: u8,
) -> Result<Items<Wiring>, Memory>
    requires { length nets.now ≡ length owns.now }
    ensures { IfOk result (λ wirings. wirings ≡ wirings_with device.now plan.now channel nets.now owns.now) }
{
    let mut wirings = Vec::new(alloc);
    for (at, net) in nets.iter().enumerate() {
        let own = owns[at].as_slice();
        add_wiring(&mut wirings, alloc, device, plan, net, own, channel)?;
    }
    Ok(Items::from_vec(wirings))
}
