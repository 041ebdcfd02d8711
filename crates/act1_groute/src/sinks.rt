ghost use Rattle.std.specs.Prelude.{◌≡◌, ◌<◌, ◌≤◌, ◌+◌, ◌++◌, length, All, IfOk, OnOk};
ghost use Rattle.act1_circuit.specs.declared.circuit.Spot.{Spot as ASpot};
ghost use Rattle.act1_circuit.specs.Range.{InRange};
ghost use Rattle.act1_device.specs.Sites.{pin_channel};
ghost use Rattle.act1_plan.specs.Legal.{IsOnDevice, Legal};
ghost use Rattle.act1_groute.specs.Nets.{module_sinks, output_sinks, pin_sinks, sinks};

use crate::net::Sink;
use crate::reach::pad_at;
use act1_base::Memory;
use act1_circuit::{Output, Source, Spot};
use act1_device::{Device, Line, devices_are_small};
use act1_plan::Plan;
use std::alloc::Global;

// The channel that a pin of the modules of a row leads into.
fn pin_channel(device: &Device, row: u8, pin: usize) -> u8
    requires pin { pin < 8 }
    requires row { row < 255 }
    ensures { result ≡ pin_channel device.now row pin }
{
    if device.pins[pin] { row + 1 } else { row }
}

// Adds the pins of the module at a spot.
fn add_pins(
    found: &mut Vec<Sink>,
    device: &Device,
    spot: Spot,
    pins: &[Source],
) -> Result<(), Memory>
    requires pins { length pins.now ≤ 8 }
    requires row { spot.row < 255 }
    ensures { OnOk result (found.new.items ≡ found.old.items ++ pin_sinks device.now spot 0 pins.now) }
{
    for (pin, source) in pins.iter().enumerate() {
        found.push(Sink {
            source: *source,
            line: Line::Pin {
                row: spot.row,
                column: spot.column,
                pin: pin as u8,
            },
            channel: pin_channel(device, spot.row, pin),
        })?;
    }
    Ok(())
}

// Adds the pins of all modules.
fn add_modules(
    found: &mut Vec<Sink>,
    device: &Device,
    spots: &[Spot],
    modules: &[[Source; 8]],
) -> Result<(), Memory>
    requires rows { All (λ (s : ASpot). s.row < 255) spots.now }
    requires each { length spots.now ≡ length modules.now }
    ensures { OnOk result (found.new.items ≡ found.old.items ++ module_sinks device.now spots.now modules.now) }
{
    for (at, spot) in spots.iter().enumerate() {
        add_pins(found, device, *spot, &modules[at])?;
    }
    Ok(())
}

// Adds the outputs; the pad of the first of them has this number.
fn add_outputs(
    found: &mut Vec<Sink>,
    device: &Device,
    first: usize,
    outputs: &[Output],
) -> Result<(), Memory>
    requires { first + length outputs.now ≤ length device.now.pads }
    ensures { OnOk result (found.new.items ≡ found.old.items ++ output_sinks device.now first outputs.now) }
{
    devices_are_small();
    for (at, output) in outputs.iter().enumerate() {
        let pad = (first + at) as u16;
        found.push(Sink {
            source: output.source,
            line: Line::Pad { pad },
            channel: pad_at(device, pad).channel,
        })?;
    }
    Ok(())
}

/// The sinks of a plan: the pins by module and pin, and then the outputs.
pub(crate) fn sinks_of(alloc: Global, device: &Device, plan: &Plan) -> Result<Vec<Sink>, Memory>
    requires { Legal device.now plan.now }
    ensures { IfOk result (λ found. found.items ≡ sinks device.now plan.now) }
{
    devices_are_small();
    let placed = &plan.placed;
    let mut found = Vec::new(alloc);
    let modules = placed.circuit.modules.as_slice();
    add_modules(&mut found, device, placed.spots.as_slice(), modules)?;
    let outputs = placed.circuit.outputs.as_slice();
    add_outputs(&mut found, device, placed.circuit.inputs.len(), outputs)?;
    Ok(found)
}
