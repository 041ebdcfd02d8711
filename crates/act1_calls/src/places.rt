ghost use Rattle.std.specs.Prelude.{◌≡◌, ◌<◌, IfSome};
ghost use Rattle.act1_circuit.specs.Range.{InRange};

use crate::arrays::device_of;
use crate::circuits::circuit_from;
use crate::input::{bytes_of, number};
use crate::plans::plan_in;
use act1_circuit::{Circuit, Spot};
use act1_device::Device;
use act1_place::{Gains, PlaceStop, Placement, place};
use std::alloc::Global;
use std::fmt::Write;
use std::rt::Files;

// Adds where the modules stand.
fn add_spots(placement: &Placement, text: &mut String) -> Option<()> {
    text.push_str("spots").ok()?;
    for spot in placement.spots.as_slice() {
        write!(text, " {} {}", spot.row, spot.column).ok()?;
    }
    text.push('\n').ok()
}

// Adds why there is no placement; nothing where memory is short.
fn add_stop(stop: PlaceStop, text: &mut String) -> Option<()> {
    match stop {
        PlaceStop::Pads { needed, have } => writeln!(text, "pads needed {needed} have {have}").ok(),
        PlaceStop::Full { needed, have } => writeln!(text, "full needed {needed} have {have}").ok(),
        PlaceStop::Memory => None,
    }
}

// Adds the placement of a circuit on a device.
fn add_placement(
    alloc: Global,
    device: &Device,
    circuit: &Circuit,
    seed: u64,
    text: &mut String,
) -> Option<()>
    requires { InRange circuit.now }
{
    match place(alloc, device, circuit, seed) {
        Ok(placement) => add_spots(&placement, text),
        Err(stop) => add_stop(stop, text),
    }
}

/// The row `place DEVICE FUSES TARGET SEED`.
pub fn place_row<R: Files>(rt: &R, alloc: Global, words: &[&str], text: &mut String) -> Option<()> {
    let [device, fuses, target, seed] = words else {
        return None;
    };
    let circuit = circuit_from(rt, alloc, device, fuses)?;
    let target = device_of(rt, alloc, target)?;
    add_placement(alloc, &target, &circuit, number(seed)?, text)
}

// The sums of a circuit at its placement.
fn gains_of(alloc: Global, device: &Device, circuit: &Circuit, seed: u64) -> Option<Gains>
    requires { InRange circuit.now }
    ensures { IfSome result (λ gains. (gains.rows ≡ device.now.rows) × (gains.columns ≡ device.now.columns)) }
{
    match place(alloc, device, circuit, seed) {
        Ok(placement) => Gains::new(alloc, device, circuit, placement.spots.as_slice()).ok(),
        Err(_) => None,
    }
}

// Exchanges the contents of both sites, and adds the sum then and what the exchange back would gain.
fn add_moved(gains: &mut Gains, a: Spot, b: Spot, text: &mut String) -> Option<()>
    requires first { (a.row < gains.old.rows) × (a.column < gains.old.columns) }
    requires second { (b.row < gains.old.rows) × (b.column < gains.old.columns) }
{
    gains.exchange(a, b);
    writeln!(text, "total {} gain {}", gains.total(), gains.gain(a, b)).ok()
}

// The same of the first site of the device and the one of this column in its row.
fn add_column(
    alloc: Global,
    device: &Device,
    circuit: &Circuit,
    seed: u64,
    column: u8,
    text: &mut String,
) -> Option<()>
    requires { InRange circuit.now }
{
    if device.rows == 0 || column >= device.columns {
        return None;
    }
    let mut gains = gains_of(alloc, device, circuit, seed)?;
    add_moved(
        &mut gains,
        Spot { row: 0, column: 0 },
        Spot { row: 0, column },
        text,
    )
}

/// The row `gains DEVICE FUSES TARGET SEED COLUMN`.
pub fn gains_row<R: Files>(rt: &R, alloc: Global, words: &[&str], text: &mut String) -> Option<()> {
    let [device, fuses, target, seed, column] = words else {
        return None;
    };
    let circuit = circuit_from(rt, alloc, device, fuses)?;
    let target = device_of(rt, alloc, target)?;
    let column = u8::try_from(number(column)?).ok()?;
    add_column(alloc, &target, &circuit, number(seed)?, column, text)
}

// The next of the numbers that tell lists of spots apart.
fn next_mark(mark: u64, spot: Spot) -> u64 {
    (mark % 1_000_003 * 31 + u64::from(spot.row) * 64 + u64::from(spot.column)) % 1_000_003
}

// A number that tells lists of spots apart, mostly.
fn mark_of(spots: &[Spot]) -> u64 {
    let mut mark = 0;
    for spot in spots {
        mark = next_mark(mark, *spot);
    }
    mark
}

// Adds the sum of a circuit's placement, and the mark of its spots.
fn add_anew(
    alloc: Global,
    device: &Device,
    circuit: &Circuit,
    seed: u64,
    text: &mut String,
) -> Option<()>
    requires { InRange circuit.now }
{
    let gains = gains_of(alloc, device, circuit, seed)?;
    writeln!(
        text,
        "total {} mark {}",
        gains.total(),
        mark_of(gains.spots())
    )
    .ok()
}

/// The row `anew DEVICE PLAN SEED`.
pub fn anew_row<R: Files>(rt: &R, alloc: Global, words: &[&str], text: &mut String) -> Option<()> {
    let [device, plan, seed] = words else {
        return None;
    };
    let device = device_of(rt, alloc, device)?;
    let bytes = bytes_of(rt, alloc, plan)?;
    let plan = plan_in(alloc, &bytes).ok()?;
    if !plan.legal(&device) {
        return None;
    }
    add_anew(alloc, &device, &plan.placed.circuit, number(seed)?, text)
}
