ghost use Rattle.std.specs.Prelude.{◌≡◌, ◌&&◌, IfOk, map};
ghost use Rattle.std.specs.List.{list_all};
ghost use Rattle.act1_device.specs.Rules.{is_long, is_place, are_apart};
ghost use Rattle.act1_devread.specs.Range.{are_natural, long_of, place_of, are_longs, are_places, some_if};

use act1_base::{Items, Memory};
use act1_device::{Long, PadPlace};
use std::alloc::Global;

// The long wire that two integers are: the low channel is below the high one, which is at most `rows`.
fn long_of(rows: u8, pair: (i64, i64)) -> Option<Long>
    ensures { result ≡ some_if (are_natural pair && is_long rows (long_of pair)) (long_of pair) }
{
    let (low, high) = pair;
    if 0 <= low && low < high && high <= i64::from(rows) {
        Some(Long {
            low: low as u8,
            high: high as u8,
        })
    } else {
        None
    }
}

// The long wires of some pairs, or `None` where a pair is no long wire.
fn long_list_of(
    alloc: Global,
    rows: u8,
    pairs: &[(i64, i64)],
) -> Result<Option<Items<Long>>, Memory>
    ensures { IfOk result (λ o. o
        ≡ some_if (list_all (λ p. are_natural p && is_long rows (long_of p)) pairs.now)
        (map long_of pairs.now)) }
{
    let mut longs = Items::new(alloc);
    for pair in pairs {
        match long_of(rows, *pair) {
            Some(long) => longs.push(long)?,
            None => return Ok(None),
        }
    }
    Ok(Some(longs))
}

// The same for at most 32 pairs; `None` also for more.
pub fn longs_of(
    alloc: Global,
    rows: u8,
    pairs: &[(i64, i64)],
) -> Result<Option<Items<Long>>, Memory>
    ensures { IfOk result (λ o. o ≡ some_if (are_longs rows pairs.now) (map long_of pairs.now)) }
{
    if pairs.len() > 32 {
        return Ok(None);
    }
    long_list_of(alloc, rows, pairs)
}

// The place that two integers are: a channel up to `rows`, and a column below `columns`.
fn place_of(rows: u8, columns: u8, pair: (i64, i64)) -> Option<PadPlace>
    ensures { result ≡ some_if (are_natural pair && is_place rows columns (place_of pair)) (place_of pair) }
{
    let (channel, column) = pair;
    if 0 <= channel && channel <= i64::from(rows) && 0 <= column && column < i64::from(columns) {
        Some(PadPlace {
            channel: channel as u8,
            column: column as u8,
        })
    } else {
        None
    }
}

// The places of some pads, or `None` where one is outside the array.
pub fn places_of(
    alloc: Global,
    rows: u8,
    columns: u8,
    pairs: &[(i64, i64)],
) -> Result<Option<Items<PadPlace>>, Memory>
    ensures { IfOk result (λ o. o ≡ some_if (are_places rows columns pairs.now) (map place_of pairs.now)) }
{
    let mut places = Items::new(alloc);
    for pair in pairs {
        match place_of(rows, columns, *pair) {
            Some(place) => places.push(place)?,
            None => return Ok(None),
        }
    }
    Ok(Some(places))
}

// Whether no two pads are at one place.
pub fn are_apart(places: &[PadPlace]) -> bool
    ensures { result ≡ are_apart places.now }
{
    for (i, place) in places.iter().enumerate() {
        if places[i + 1..].contains(place) {
            return false;
        }
    }
    true
}
