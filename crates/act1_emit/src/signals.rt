ghost use Rattle.std.specs.Prelude.{◌≡◌, ◌++◌, ◌+◌, ◌<◌, ◌≤◌, length, OnOk, All};
ghost use Rattle.act1_device.specs.Sites.{segment_at, tracks_of};
ghost use Rattle.act1_emit.specs.SiteSteps as steps;

use act1_base::{Items, Memory};
use act1_device::{Device, Line, Site, Track};
use act1_groute::Wiring;

// Adds the sites at which lines cross a signal track.
fn add_lines(sites: &mut Vec<Site>, channel: u8, track: u8, lines: &[Line]) -> Result<(), Memory>
    ensures { OnOk result (sites.new.items ≡ sites.old.items ++ steps.line_sites channel track lines.now) }
{
    for line in lines {
        sites.push(Site::Cross {
            channel,
            track: Track::Signal(track),
            line: *line,
        })?;
    }
    Ok(())
}

// Adds those between the segments from the first to the last.
fn add_along(
    sites: &mut Vec<Site>,
    channel: u8,
    track: u8,
    first: u8,
    last: u8,
) -> Result<(), Memory>
    ensures { OnOk result (sites.new.items ≡ sites.old.items ++ steps.along_sites channel track first last) }
{
    for index in first..last {
        sites.push(Site::Along {
            channel,
            track,
            index,
        })?;
    }
    Ok(())
}

// Adds those of a connection on its track.
fn add_connection(
    sites: &mut Vec<Site>,
    device: &Device,
    channel: u8,
    wiring: &Wiring,
    track: u8,
) -> Result<(), Memory>
    requires { track < length (tracks_of device.now channel) }
    ensures { OnOk result (sites.new.items ≡ sites.old.items ++ steps.connection_sites device.now channel wiring.now track) }
{
    add_lines(sites, channel, track, wiring.lines.as_slice())?;
    let first = device.segment_at(channel, track, wiring.left);
    let last = device.segment_at(channel, track, wiring.right);
    add_along(sites, channel, track, first, last)?;
    Ok(())
}

// The track's number among the tracks of a channel.
fn track_number(track: u16) -> u8
    requires { track ≤ 255 }
    ensures { result ≡ track }
{
    track as u8
}

// Adds those of the connections of a channel.
fn add_channel(
    sites: &mut Vec<Site>,
    device: &Device,
    channel: u8,
    wirings: &[Wiring],
    tracks: &[u16],
) -> Result<(), Memory>
    requires { steps.HasTrackEach device.now channel wirings.now tracks.now }
    ensures { OnOk result (sites.new.items ≡ sites.old.items ++ steps.channel_sites device.now channel wirings.now tracks.now) }
{
    for at in 0..wirings.len() {
        add_connection(
            sites,
            device,
            channel,
            &wirings[at],
            track_number(tracks[at]),
        )?;
    }
    Ok(())
}

/// Adds the sites of all connections on their tracks.
pub fn add_signals(
    sites: &mut Vec<Site>,
    device: &Device,
    channels: &[Items<Wiring>],
    tracks: &[Items<u16>],
) -> Result<(), Memory>
    requires each { length tracks.now ≡ length channels.now }
    requires there { steps.HaveTrackEach device.now channels.now tracks.now }
    requires few { length channels.now ≤ 255 }
    ensures { OnOk result (sites.new.items ≡ sites.old.items ++ steps.signal_sites device.now 0 channels.now tracks.now) }
{
    for channel in 0..channels.len() {
        let wirings = channels[channel].as_slice();
        let assigned = tracks[channel].as_slice();
        add_channel(sites, device, channel as u8, wirings, assigned)?;
    }
    Ok(())
}
