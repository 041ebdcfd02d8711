ghost use Rattle.std.specs.Prelude.{◌≡◌, None, map};
ghost use Rattle.act1_device.specs.Rules.{are_channels};
ghost use Rattle.act1_devread.specs.Range.{naturals, long_of, place_of, are_longs, are_places};
ghost use Rattle.act1_devread.specs.Rules.{first_fault, size_rules, list_rules};
ghost use Rattle.act1_devread.specs.ReadingSteps.{fault, AsksWithMemory, Follows, HasSizes};
ghost use Rattle.act1_devread.specs.Text.{HasValues};

use crate::fault::{DeviceFault, DeviceKind};
use crate::places::{are_apart, longs_of, places_of};
use crate::ranges::out_of_range;
use crate::tracks::{are_in_order, channels_of};
use crate::values::{Sizes, Values};
use act1_base::{Items, Name};
use act1_device::{Device, Long, PadPlace};
use std::alloc::Global;

// The tracks of all channels, in range.
fn tracks(
    alloc: Global,
    rows: u8,
    columns: u8,
    lists: &[Items<Items<i64>>],
) -> Result<Items<Items<Items<u8>>>, DeviceFault>
    ensures { AsksWithMemory (are_channels rows columns (naturals lists.now))
        (naturals lists.now)
        (fault DeviceKind.Range 8) result }
{
    match channels_of(alloc, rows, columns, lists)? {
        Some(tracks) => Ok(tracks),
        None => Err(out_of_range(8)),
    }
}

// The long wires, in range.
fn longs(alloc: Global, rows: u8, pairs: &[(i64, i64)]) -> Result<Items<Long>, DeviceFault>
    ensures { AsksWithMemory (are_longs rows pairs.now)
        (map long_of pairs.now)
        (fault DeviceKind.Range 9) result }
{
    match longs_of(alloc, rows, pairs)? {
        Some(longs) => Ok(longs),
        None => Err(out_of_range(9)),
    }
}

// The pads, in range.
fn pads(
    alloc: Global,
    rows: u8,
    columns: u8,
    pairs: &[(i64, i64)],
) -> Result<Items<PadPlace>, DeviceFault>
    ensures { AsksWithMemory (are_places rows columns pairs.now)
        (map place_of pairs.now)
        (fault DeviceKind.Range 10) result }
{
    match places_of(alloc, rows, columns, pairs)? {
        Some(pads) => Ok(pads),
        None => Err(out_of_range(10)),
    }
}

// The device of the values, by the first rule of its lists that is broken.
#[tactic(auto, using(crate::proofs::Valid::device_of_values), unfolding(crate::specs::Rules::list_rules, crate::specs::Rules::first_fault))]
pub fn device_of(alloc: Global, values: &Values, sizes: Sizes) -> Result<Device, DeviceFault>
    requires in_range { first_fault (size_rules values.now) ≡ None }
    requires sizes { HasSizes values.now sizes }
    ensures { Follows (list_rules values.now) (HasValues values.now) result }
{
    let Sizes {
        rows,
        columns,
        pins,
        ..
    } = sizes;
    let name = Name::new(alloc, values.name.as_bytes())?;
    let tracks = tracks(alloc, rows, columns, values.tracks.as_slice())?;
    let longs = longs(alloc, rows, values.longs.as_slice())?;
    let pads = pads(alloc, rows, columns, values.pads.as_slice())?;
    if !are_in_order(tracks.as_slice()) {
        return Err(DeviceFault::new(DeviceKind::Order, 8));
    }
    if !are_apart(pads.as_slice()) {
        return Err(DeviceFault::new(DeviceKind::Pads, 10));
    }
    Ok(Device {
        name,
        rows,
        columns,
        pins,
        below: sizes.below,
        above: sizes.above,
        tracks,
        longs,
        pads,
    })
}
