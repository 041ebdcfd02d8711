ghost use Rattle.std.specs.Prelude.{◌≡◌, ◌≤◌, [], map, slice_index_or, IfOk};
ghost use Rattle.act1_device.specs.Sites.{tracks_of};
ghost use Rattle.act1_groute.specs.Problems.{AreRoutesOf};
ghost use Rattle.act1_groute.specs.Routes.{IsProblemOf, interval};

use crate::laws::problems_fit;
use crate::wiring::{Routes, Wiring};
use act1_base::{Items, Memory};
use act1_channel::{Connection, Problem};
use act1_device::Device;
use std::alloc::Global;

// The tracks of a number, or none past the last.
fn entry_or_empty(entries: &[Items<Items<u8>>], at: usize) -> &[Items<u8>]
    ensures { result.now ≡ slice_index_or entries.now at [] }
{
    match entries.get(at) {
        Some(tracks) => tracks.as_slice(),
        None => &[],
    }
}

// The signal tracks of a channel, each as its breaks: a single entry serves every channel.
fn tracks_of(device: &Device, channel: u8) -> &[Items<u8>]
    ensures { result.now ≡ tracks_of device.now channel }
{
    if device.tracks.len() == 1 {
        entry_or_empty(device.tracks.as_slice(), 0)
    } else {
        entry_or_empty(device.tracks.as_slice(), usize::from(channel))
    }
}

// A copy of the tracks.
fn copy_of_tracks(alloc: Global, tracks: &[Items<u8>]) -> Result<Items<Items<u8>>, Memory>
    ensures { IfOk result (λ copies. copies ≡ tracks.now) }
{
    let mut copies = Vec::new(alloc);
    for breaks in tracks {
        copies.push(Items::from_slice(alloc, breaks.as_slice())?)?;
    }
    Ok(Items::from_vec(copies))
}

// The intervals of the connections.
fn intervals_of(alloc: Global, wirings: &[Wiring]) -> Result<Items<Connection>, Memory>
    ensures { IfOk result (λ found. found ≡ map interval wirings.now) }
{
    let mut found = Vec::new(alloc);
    for wiring in wirings {
        found.push(Connection {
            left: wiring.left,
            right: wiring.right,
        })?;
    }
    Ok(Items::from_vec(found))
}

/// The problem of a channel, from 0 to the number of rows: the device's columns and its tracks in the channel, the
/// intervals of the channel's connections, in the order of nets, and `k`, 1 to 64, the most segments of a track that a
/// connection may occupy.
///
/// Error: `Memory`.
pub fn problem_of(
    alloc: Global,
    device: &Device,
    routes: &Routes,
    channel: u8,
    k: u8,
) -> Result<Problem, Memory>
    requires routes { AreRoutesOf device.now routes.now.channels }
    requires channel { channel ≤ device.now.rows }
    requires low { 1 ≤ k }
    requires high { k ≤ 64 }
    ensures { IfOk result (IsProblemOf device.now k channel (slice_index_or routes.now.channels channel [])) }
{
    problems_fit();
    let wirings = routes.channels.as_slice()[usize::from(channel)].as_slice();
    let connections = intervals_of(alloc, wirings)?;
    let tracks = copy_of_tracks(alloc, tracks_of(device, channel))?;
    Ok(Problem {
        columns: device.columns,
        k,
        tracks,
        connections,
    })
}
