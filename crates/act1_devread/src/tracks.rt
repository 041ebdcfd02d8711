ghost use Rattle.std.specs.Prelude.{◌≡◌, ◌&&◌, nat_le, nat_lt, IfOk, map};
ghost use Rattle.std.specs.List.{list_all};
ghost use Rattle.act1_base.specs.Rising.{is_rising};
ghost use Rattle.act1_device.specs.Rules.{are_inside, are_tracks, are_channels, are_in_order};
ghost use Rattle.act1_devread.specs.Range.{natural, naturals, some_if};

use act1_base::{Items, Memory};
use std::alloc::Global;

// The break that an integer is: it lies inside the columns.
fn break_of(columns: u8, integer: i64) -> Option<u8>
    ensures { result
        ≡ some_if (nat_le 1 (natural integer) && nat_lt (natural integer) columns) (natural integer) }
{
    if 1 <= integer && integer < i64::from(columns) {
        Some(integer as u8)
    } else {
        None
    }
}

// The breaks of a track, or `None` where one isn't inside the columns.
fn breaks_of(alloc: Global, columns: u8, integers: &[i64]) -> Result<Option<Items<u8>>, Memory>
    ensures { IfOk result (λ o. o
        ≡ some_if (are_inside columns (map natural integers.now)) (map natural integers.now)) }
{
    let mut breaks = Items::new(alloc);
    for integer in integers {
        match break_of(columns, *integer) {
            Some(place) => breaks.push(place)?,
            None => return Ok(None),
        }
    }
    Ok(Some(breaks))
}

// The tracks of a channel, or `None` where a break of one isn't inside the columns.
fn track_lists_of(
    alloc: Global,
    columns: u8,
    lists: &[Items<i64>],
) -> Result<Option<Items<Items<u8>>>, Memory>
    ensures { IfOk result (λ o. o
        ≡ some_if (list_all (are_inside columns) (map (map natural) lists.now))
        (map (map natural) lists.now)) }
{
    let mut tracks = Items::new(alloc);
    for list in lists {
        match breaks_of(alloc, columns, list.as_slice())? {
            Some(breaks) => tracks.push(breaks)?,
            None => return Ok(None),
        }
    }
    Ok(Some(tracks))
}

// The same for 1 to 64 tracks; `None` also for another number of them.
fn tracks_of(
    alloc: Global,
    columns: u8,
    lists: &[Items<i64>],
) -> Result<Option<Items<Items<u8>>>, Memory>
    ensures { IfOk result (λ o. o
        ≡ some_if (are_tracks columns (map (map natural) lists.now))
        (map (map natural) lists.now)) }
{
    if lists.is_empty() || lists.len() > 64 {
        return Ok(None);
    }
    track_lists_of(alloc, columns, lists)
}

// The tracks of several channels, or `None` where one is out of range.
fn channel_lists_of(
    alloc: Global,
    columns: u8,
    lists: &[Items<Items<i64>>],
) -> Result<Option<Items<Items<Items<u8>>>>, Memory>
    ensures { IfOk result (λ o. o
        ≡ some_if (list_all (are_tracks columns) (naturals lists.now)) (naturals lists.now)) }
{
    let mut channels = Items::new(alloc);
    for list in lists {
        match tracks_of(alloc, columns, list.as_slice())? {
            Some(tracks) => channels.push(tracks)?,
            None => return Ok(None),
        }
    }
    Ok(Some(channels))
}

// The tracks of all channels: one entry that serves every channel, or one for each. `None` where they
// are out of range.
pub fn channels_of(
    alloc: Global,
    rows: u8,
    columns: u8,
    lists: &[Items<Items<i64>>],
) -> Result<Option<Items<Items<Items<u8>>>>, Memory>
    ensures { IfOk result (λ o. o
        ≡ some_if (are_channels rows columns (naturals lists.now)) (naturals lists.now)) }
{
    if lists.len() != 1 && lists.len() != usize::from(rows) + 1 {
        return Ok(None);
    }
    channel_lists_of(alloc, columns, lists)
}

// Whether each break is below the next.
fn is_rising(breaks: &[u8]) -> bool
    ensures { result ≡ is_rising breaks.now }
{
    for i in 1..breaks.len() {
        if breaks[i - 1] >= breaks[i] {
            return false;
        }
    }
    true
}

fn are_rising(tracks: &[Items<u8>]) -> bool
    ensures { result ≡ list_all is_rising tracks.now }
{
    tracks.iter().all(|breaks| is_rising(breaks.as_slice()))
}

// Whether the breaks of each track rise.
pub fn are_in_order(channels: &[Items<Items<u8>>]) -> bool
    ensures { result ≡ are_in_order channels.now }
{
    channels.iter().all(|tracks| are_rising(tracks.as_slice()))
}
