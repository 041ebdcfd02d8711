ghost use Rattle.std.specs.Prelude.{◌≡◌, ◌++◌, ◌+◌, ◌<◌, ◌≤◌, length, OnOk, All};
ghost use Rattle.act1_device.specs.Sites.{pin_channel, pad_at};
ghost use Rattle.act1_device.specs.declared.device.Line.TheVariants as line;
ghost use Rattle.act1_circuit.specs.declared.circuit.Spot.{Spot as ASpot};
ghost use Rattle.act1_groute.specs.Emitted.{dedicated};
ghost use Rattle.act1_groute.specs.Nets.{pin_sinks, module_sinks, output_sinks, sinks};
ghost use Rattle.act1_emit.specs.SiteSteps as steps;

use act1_base::Memory;
use act1_circuit::{Output, Source, Spot};
use act1_device::{Device, Line, Site, Track};
use act1_plan::Plan;

// The dedicated track of a constant or the clock.
fn dedicated_track(source: Source) -> Option<Track>
    ensures { result ≡ dedicated source }
{
    match source {
        Source::Zero => Some(Track::Gnd),
        Source::One => Some(Track::Vcc),
        Source::Clock => Some(Track::Clk),
        Source::Input(_) | Source::Module(_) => None,
    }
}

// Adds the site at which a sink of a constant or the clock is joined to its track.
fn add_rail(sites: &mut Vec<Site>, source: Source, line: Line, channel: u8) -> Result<(), Memory>
    ensures { OnOk result (sites.new.items ≡ sites.old.items ++ steps.rail_sites (record { source = source; line = line; channel = channel })) }
{
    match dedicated_track(source) {
        Some(track) => sites.push(Site::Cross {
            channel,
            track,
            line,
        })?,
        None => (),
    }
    Ok(())
}

// The channel that a pin leads into.
fn channel_of_pin(device: &Device, row: u8, pin: u8) -> u8
    requires row { row < 32 }
    requires pin { pin < 8 }
    ensures { result ≡ pin_channel device.now row pin }
{
    if device.pins[usize::from(pin)] {
        row + 1
    } else {
        row
    }
}

// Adds the site of a pin that a constant or the clock drives.
fn add_pin(
    sites: &mut Vec<Site>,
    device: &Device,
    spot: Spot,
    pin: u8,
    source: Source,
) -> Result<(), Memory>
    requires row { spot.row < 32 }
    requires pin { pin < 8 }
    ensures { OnOk result (sites.new.items ≡ sites.old.items ++ steps.rail_sites (record { source = source; line = line.Pin spot.row spot.column pin; channel = pin_channel device.now spot.row pin })) }
{
    let Spot { row, column } = spot;
    let channel = channel_of_pin(device, row, pin);
    add_rail(sites, source, Line::Pin { row, column, pin }, channel)
}

// Adds the sites of a module's pins.
fn add_pins(
    sites: &mut Vec<Site>,
    device: &Device,
    spot: Spot,
    pins: [Source; 8],
) -> Result<(), Memory>
    requires { spot.row < 32 }
    ensures { OnOk result (sites.new.items ≡ sites.old.items ++ steps.all_rails (pin_sinks device.now spot 0 pins)) }
{
    for pin in 0..8 {
        add_pin(sites, device, spot, pin, pins[usize::from(pin)])?;
    }
    Ok(())
}

// Adds those of all modules.
fn add_modules(
    sites: &mut Vec<Site>,
    device: &Device,
    spots: &[Spot],
    modules: &[[Source; 8]],
) -> Result<(), Memory>
    requires each { length spots.now ≡ length modules.now }
    requires rows { All (λ (s : ASpot). s.row < 32) spots.now }
    ensures { OnOk result (sites.new.items ≡ sites.old.items ++ steps.all_rails (module_sinks device.now spots.now modules.now)) }
{
    for at in 0..modules.len() {
        add_pins(sites, device, spots[at], modules[at])?;
    }
    Ok(())
}

// Adds the site of an output's pad.
fn add_output(
    sites: &mut Vec<Site>,
    device: &Device,
    pad: usize,
    source: Source,
) -> Result<(), Memory>
    requires there { pad < length device.now.pads }
    requires few { length device.now.pads ≤ 65535 }
    ensures { OnOk result (sites.new.items ≡ sites.old.items ++ steps.rail_sites (record { source = source; line = line.Pad pad; channel = (pad_at device.now pad).channel })) }
{
    let channel = device.pads.as_slice()[pad].channel;
    add_rail(sites, source, Line::Pad { pad: pad as u16 }, channel)
}

// Adds those of the outputs, whose pads begin with the first.
fn add_outputs(
    sites: &mut Vec<Site>,
    device: &Device,
    first: usize,
    outputs: &[Output],
) -> Result<(), Memory>
    requires there { first + length outputs.now ≤ length device.now.pads }
    requires few { length device.now.pads ≤ 65535 }
    ensures { OnOk result (sites.new.items ≡ sites.old.items ++ steps.all_rails (output_sinks device.now first outputs.now)) }
{
    for (i, output) in outputs.iter().enumerate() {
        add_output(sites, device, first + i, output.source)?;
    }
    Ok(())
}

/// Adds the sites at which sinks of the constants and of the clock are joined to their tracks.
pub fn add_rails(sites: &mut Vec<Site>, device: &Device, plan: &Plan) -> Result<(), Memory>
    requires each { length plan.now.placed.spots ≡ length plan.now.placed.circuit.modules }
    requires rows { All (λ (s : ASpot). s.row < 32) plan.now.placed.spots }
    requires there { length plan.now.placed.circuit.inputs + length plan.now.placed.circuit.outputs ≤ length device.now.pads }
    requires few { length device.now.pads ≤ 65535 }
    ensures { OnOk result (sites.new.items ≡ sites.old.items ++ steps.all_rails (sinks device.now plan.now)) }
{
    let circuit = &plan.placed.circuit;
    add_modules(
        sites,
        device,
        plan.placed.spots.as_slice(),
        circuit.modules.as_slice(),
    )?;
    add_outputs(
        sites,
        device,
        circuit.inputs.len(),
        circuit.outputs.as_slice(),
    )?;
    Ok(())
}
