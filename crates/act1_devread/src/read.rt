ghost use Rattle.std.specs.Prelude.{◌≡◌, ◌≢◌, IfOk, IfErr};
ghost use Rattle.toml.specs.View.{table_view};
ghost use Rattle.act1_devread.specs.Document.{values_of};
ghost use Rattle.act1_devread.specs.Rules.{rules_of};
ghost use Rattle.act1_devread.specs.ReadingSteps.{Follows};
ghost use Rattle.act1_devread.specs.Text.{DeviceText, DeviceBad, HasValues};

use crate::device::device_of;
use crate::fault::{DeviceFault, DeviceKind};
use crate::keys::{check_known, check_present};
use crate::kinds::values_in;
use crate::ranges::sizes_of;
use act1_device::Device;
use std::alloc::Global;
use toml::Table;

/// Reads a device file: a TOML document with the keys `format`, `name`, `rows`, `columns`, `pins`,
/// `below`, `above`, `tracks`, `longs` and `pads` and no other.
///
/// The fault is the first in this order, and within a kind the one at the first key:
///
/// - `Text`, where the bytes aren't UTF-8 or the crate `toml` refuses the document;
/// - `Missing`, where a key is missing;
/// - `Kind`, where a value isn't of the kind of its key;
/// - `Range`, where a value is out of the range of its key;
/// - `Order`, where the breaks of a track don't rise;
/// - `Pads`, where two pads are at one place;
/// - `Unknown`, where there is another key.
///
/// `Memory` may come at any time. The rules are this project's own.
pub fn read_device(alloc: Global, bytes: &[u8]) -> Result<Device, DeviceFault>
    ensures read { IfOk result (λ dev. DeviceText bytes.now dev) }
    ensures refused { IfErr result (λ e. e.kind ≢ DeviceKind.Memory → DeviceBad bytes.now e.kind e.key) }
    ensures memory { IfErr result (λ e. e.kind ≡ DeviceKind.Memory → e.key ≡ 0) }
{
    match toml::table_from_slice(alloc, bytes) {
        Ok(table) => device_in(alloc, &table),
        Err(e) => {
            if e.is_memory() {
                Err(DeviceFault::new(DeviceKind::Memory, 0))
            } else {
                Err(DeviceFault::new(DeviceKind::Text, 0))
            }
        }
    }
}

// The device of a table, by the first rule that is broken.
#[tactic(auto, using(crate::proofs::FaultOrder::stages))]
fn device_in(alloc: Global, table: &Table) -> Result<Device, DeviceFault>
    ensures { Follows (rules_of (table_view table.now))
        (HasValues (values_of (table_view table.now))) result }
{
    check_present(table)?;
    let values = values_in(alloc, table)?;
    let sizes = sizes_of(&values)?;
    let device = device_of(alloc, &values, sizes)?;
    check_known(table)?;
    Ok(device)
}
