ghost use Rattle.std.specs.Prelude.{◌≡◌, [], ◌∷◌, ◌==◌, ◌≤◌, ◌<◌, IsTrue, Some, length, map};
ghost use Rattle.std.specs.List.{list_any};
ghost use Rattle.std.specs.Str.{bytes_eq};
ghost use Rattle.act1_base.specs.Rising.{is_before};
ghost use Rattle.act1_fuses.specs.Given.{given_of, is_own_name};
ghost use Rattle.act1_fuses.specs.Reading as reading;
ghost use Rattle.act1_fuses.specs.ReadingSteps.{Takes};
ghost use Rattle.act1_fuses.specs.SiteTest.{is_site};
ghost use Rattle.act1_fuses.specs.declared.form.FuseLine.TheVariants as form;

use crate::fault::FuseKind;
use crate::form::{CLOCK, DEVICE, END, FUSE, FuseLine, FuseState, HEADER, IN, OUT, START};
use crate::fuses::{FuseFile, Port, StartAt};
use act1_base::{Items, Name, Stop};
use act1_circuit::Spot;
use act1_device::{Device, Site};
use std::alloc::Global;

// The place of a line's kind among the kinds.
fn place_of(line: &FuseLine) -> u8
    ensures { result ≡ reading.place_of line.now }
{
    match line {
        FuseLine::Header => HEADER,
        FuseLine::Device { .. } => DEVICE,
        FuseLine::Clock { .. } => CLOCK,
        FuseLine::In { .. } => IN,
        FuseLine::Out { .. } => OUT,
        FuseLine::Start { .. } => START,
        FuseLine::Fuse { .. } => FUSE,
        FuseLine::End => END,
    }
}

// Whether a line of a kind may follow one of another, by their places.
fn may_follow(before: u8, place: u8) -> bool
    ensures { result ≡ reading.may_follow before place }
{
    if place <= DEVICE {
        return u32::from(before) + 1 == u32::from(place);
    }
    before >= DEVICE && (before < place || (before == place && place >= IN && place <= FUSE))
}

// Whether the numbers come before others, as words do in a dictionary.
fn is_before(xs: &[u32], ys: &[u32]) -> bool
    ensures { result ≡ is_before xs.now ys.now }
{
    for (i, y) in ys.iter().enumerate() {
        if i >= xs.len() {
            return true;
        }
        if xs[i] != *y {
            return xs[i] < *y;
        }
    }
    false
}

// Whether a start or an antifuse comes after the one before.
fn comes_after(state: &FuseState, place: u8, numbers: &[u32]) -> bool
    ensures { result ≡ reading.comes_after state.now place numbers.now }
{
    if state.place == place {
        is_before(state.last.as_slice(), numbers)
    } else {
        is_before(&[], numbers)
    }
}

// Whether one of the ports has the pad.
fn uses_pad(pad: u32, ports: &[Port]) -> bool
    ensures { result ≡ reading.uses_pad pad ports.now }
{
    for port in ports {
        if u32::from(port.pad) == pad {
            return true;
        }
    }
    false
}

// Whether the device has the pad, and no line so far uses it.
fn is_free_pad(device: &Device, file: &FuseFile, pad: u32) -> bool
    ensures { result ≡ reading.is_free_pad device.now file.now pad }
{
    if pad > 65_535 || pad as usize >= device.pads.len() {
        return false;
    }
    !(uses_pad(pad, file.ins.as_slice()) || uses_pad(pad, file.outs.as_slice()))
}

// Whether two names are the same.
fn has_name(other: &Name, name: &Name) -> bool
    ensures { result ≡ bytes_eq other.now name.now }
{
    other.as_bytes() == name.as_bytes()
}

// Whether an antifuse may stand at a site.
#[tactic(auto, using(crate::proofs::SiteTests::tested_site))]
fn is_site(device: &Device, site: Site) -> bool
    ensures { result ≡ is_site device.now site }
{
    device.is_site(site)
}

// Moves to the place of a line that isn't ordered among others.
fn move_to(alloc: Global, state: &mut FuseState, place: u8)
    ensures { state.new ≡ record { place = place; last = []; file = state.old.file } }
{
    state.place = place;
    state.last = Items::new(alloc);
}

// The device's line.
fn add_device(
    alloc: Global,
    device: &Device,
    state: &mut FuseState,
    name: Name,
) -> Result<(), Stop<FuseKind>>
    requires { IsTrue (reading.may_follow state.old.place (reading.place_of (form.Device name))) }
    ensures { Takes (reading.step device.now state.old (form.Device name)) state.new result }
{
    if !has_name(&name, &device.name) {
        return Err(Stop::Fault(FuseKind::Device));
    }
    state.file.device = name;
    move_to(alloc, state, DEVICE);
    Ok(())
}

// The clock's line.
fn add_clock(alloc: Global, state: &mut FuseState, name: Name)
    ensures { state.new ≡ reading.state_with state.old (form.Clock name) }
{
    state.file.clock = Some(name);
    move_to(alloc, state, CLOCK);
}

// The line of an input.
fn add_in(
    alloc: Global,
    device: &Device,
    state: &mut FuseState,
    pad: u32,
    name: Name,
    is_own: bool,
) -> Result<(), Stop<FuseKind>>
    requires place { IsTrue (reading.may_follow state.old.place (reading.place_of (form.In pad name))) }
    requires own { is_own ≡ is_own_name (given_of state.old.file) state.old.file.clock (form.In pad name) }
    ensures { Takes (reading.step device.now state.old (form.In pad name)) state.new result }
{
    if !is_free_pad(device, &state.file, pad) {
        return Err(Stop::Fault(FuseKind::Pad));
    }
    if !is_own {
        return Err(Stop::Fault(FuseKind::Name));
    }
    let pad = pad as u16;
    state.file.ins.push(Port { pad, name })?;
    move_to(alloc, state, IN);
    Ok(())
}

// The line of an output.
fn add_out(
    alloc: Global,
    device: &Device,
    state: &mut FuseState,
    pad: u32,
    name: Name,
    is_own: bool,
) -> Result<(), Stop<FuseKind>>
    requires place { IsTrue (reading.may_follow state.old.place (reading.place_of (form.Out pad name))) }
    requires own { is_own ≡ is_own_name (given_of state.old.file) state.old.file.clock (form.Out pad name) }
    ensures { Takes (reading.step device.now state.old (form.Out pad name)) state.new result }
{
    if !is_free_pad(device, &state.file, pad) {
        return Err(Stop::Fault(FuseKind::Pad));
    }
    if !is_own {
        return Err(Stop::Fault(FuseKind::Name));
    }
    let pad = pad as u16;
    state.file.outs.push(Port { pad, name })?;
    move_to(alloc, state, OUT);
    Ok(())
}

// The line of a start.
fn add_start(
    alloc: Global,
    device: &Device,
    state: &mut FuseState,
    spot: (u32, u32),
    init: u8,
    name: Name,
    is_own: bool,
) -> Result<(), Stop<FuseKind>>
    requires place { IsTrue (reading.may_follow state.old.place (reading.place_of (form.Start spot.0 spot.1 init name))) }
    requires own { is_own ≡ is_own_name (given_of state.old.file) state.old.file.clock (form.Start spot.0 spot.1 init name) }
    ensures { Takes (reading.step device.now state.old (form.Start spot.0 spot.1 init name)) state.new result }
{
    let (row, column) = spot;
    if !comes_after(state, START, &[row, column]) {
        return Err(Stop::Fault(FuseKind::Order));
    }
    if row >= u32::from(device.rows) || column >= u32::from(device.columns) {
        return Err(Stop::Fault(FuseKind::Site));
    }
    if !is_own {
        return Err(Stop::Fault(FuseKind::Name));
    }
    let last = Items::from_slice(alloc, &[row, column])?;
    let row = row as u8;
    let column = column as u8;
    let spot = Spot { row, column };
    state.file.starts.push(StartAt { spot, init, name })?;
    state.last = last;
    state.place = START;
    Ok(())
}

// The line of an antifuse.
fn add_fuse(
    device: &Device,
    state: &mut FuseState,
    numbers: Items<u32>,
    site: Option<Site>,
) -> Result<(), Stop<FuseKind>>
    requires { IsTrue (reading.may_follow state.old.place (reading.place_of (form.Fuse numbers site))) }
    ensures { Takes (reading.step device.now state.old (form.Fuse numbers site)) state.new result }
{
    if !comes_after(state, FUSE, numbers.as_slice()) {
        return Err(Stop::Fault(FuseKind::Order));
    }
    let Some(site) = site else {
        return Err(Stop::Fault(FuseKind::Site));
    };
    if !is_site(device, site) {
        return Err(Stop::Fault(FuseKind::Site));
    }
    state.file.sites.push(site)?;
    state.last = numbers;
    state.place = FUSE;
    Ok(())
}

/// What a line of an antifuse file of the device does: what the line says is added to the state, or the
/// least kind of what is wrong with it is answered. Whether what the line names may have its name is told.
pub fn step(
    alloc: Global,
    device: &Device,
    state: &mut FuseState,
    line: FuseLine,
    is_own: bool,
) -> Result<(), Stop<FuseKind>>
    requires { is_own ≡ is_own_name (given_of state.old.file) state.old.file.clock line }
    ensures { Takes (reading.step device.now state.old line) state.new result }
{
    if !may_follow(state.place, place_of(&line)) {
        return Err(Stop::Fault(FuseKind::Order));
    }
    match line {
        FuseLine::Header => {
            move_to(alloc, state, HEADER);
            Ok(())
        }
        FuseLine::Device { name } => add_device(alloc, device, state, name),
        FuseLine::Clock { name } => {
            add_clock(alloc, state, name);
            Ok(())
        }
        FuseLine::In { pad, name } => add_in(alloc, device, state, pad, name, is_own),
        FuseLine::Out { pad, name } => add_out(alloc, device, state, pad, name, is_own),
        FuseLine::Start {
            row,
            column,
            init,
            name,
        } => add_start(alloc, device, state, (row, column), init, name, is_own),
        FuseLine::Fuse { numbers, site } => add_fuse(device, state, numbers, site),
        FuseLine::End => {
            move_to(alloc, state, END);
            Ok(())
        }
    }
}
