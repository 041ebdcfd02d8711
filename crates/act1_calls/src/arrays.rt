ghost use Rattle.std.specs.Prelude.{IfSome};
ghost use Rattle.act1_fuses.specs.Rules.{KeepsRules};

use crate::input::bytes_of;
use act1_base::HashSeed;
use act1_device::Device;
use act1_devread::read_device;
use act1_fuses::{FuseFile, read_fuses, write_fuses};
use act1_sim::simulate;
use std::alloc::Global;
use std::rt::Files;

/// Adds bytes to a text, each as a character.
pub fn add_bytes(text: &mut String, bytes: &[u8]) -> Option<()> {
    for byte in bytes {
        text.push(char::from(*byte)).ok()?;
    }
    Some(())
}

/// The device of a file.
pub fn device_of<R: Files>(rt: &R, alloc: Global, name: &str) -> Option<Device> {
    let bytes = bytes_of(rt, alloc, name)?;
    read_device(alloc, &bytes).ok()
}

// The antifuse file of some bytes.
fn fuses_in(alloc: Global, device: &Device, bytes: &[u8]) -> Option<FuseFile>
    ensures { IfSome result (λ file. KeepsRules device.now file) }
{
    if bytes.len() > 4_000_000_000 {
        return None;
    }
    read_fuses(alloc, HashSeed::new([0; 16]), device, bytes).ok()
}

/// The antifuse file of a file, on the device.
pub fn fuses_of<R: Files>(rt: &R, alloc: Global, device: &Device, name: &str) -> Option<FuseFile>
    ensures { IfSome result (λ file. KeepsRules device.now file) }
{
    let bytes = bytes_of(rt, alloc, name)?;
    fuses_in(alloc, device, &bytes)
}

// Adds the text of an antifuse file.
fn add_written(alloc: Global, file: &FuseFile, text: &mut String) -> Option<()> {
    let bytes = write_fuses(alloc, file).ok()?;
    add_bytes(text, &bytes)
}

// Adds an antifuse file of the device as it is written.
fn add_file<R: Files>(
    rt: &R,
    alloc: Global,
    device: &Device,
    name: &str,
    text: &mut String,
) -> Option<()> {
    let file = fuses_of(rt, alloc, device, name)?;
    add_written(alloc, &file, text)
}

/// The row `written DEVICE FUSES`.
pub fn written_row<R: Files>(
    rt: &R,
    alloc: Global,
    words: &[&str],
    text: &mut String,
) -> Option<()> {
    let [device, fuses] = words else {
        return None;
    };
    let device = device_of(rt, alloc, device)?;
    add_file(rt, alloc, &device, fuses, text)
}

// What an antifuse file shows over vectors with this fill.
fn shown(
    alloc: Global,
    fill: bool,
    device: &Device,
    file: &FuseFile,
    vectors: &[u8],
) -> Option<Vec<u8>>
    requires { KeepsRules device.now file.now }
{
    if vectors.len() > 4_000_000_000 {
        return None;
    }
    simulate(alloc, device, file, vectors, fill).ok()
}

// What an antifuse file of the device shows over vectors with this fill.
fn filled<R: Files>(
    rt: &R,
    alloc: Global,
    fill: bool,
    device: &Device,
    fuses: &str,
    vectors: &[u8],
) -> Option<Vec<u8>> {
    let file = fuses_of(rt, alloc, device, fuses)?;
    shown(alloc, fill, device, &file, vectors)
}

// Adds what an antifuse file of the device shows over the vectors of a file with this fill.
fn add_filled<R: Files>(
    rt: &R,
    alloc: Global,
    fill: bool,
    device: &Device,
    names: [&str; 2],
    text: &mut String,
) -> Option<()> {
    let vectors = bytes_of(rt, alloc, names[1])?;
    let shown = filled(rt, alloc, fill, device, names[0], &vectors)?;
    add_bytes(text, &shown)
}

/// The row `filled B DEVICE FUSES VECTORS`.
pub fn filled_row<R: Files>(
    rt: &R,
    alloc: Global,
    words: &[&str],
    text: &mut String,
) -> Option<()> {
    let [fill, device, fuses, vectors] = words else {
        return None;
    };
    let device = device_of(rt, alloc, device)?;
    add_filled(rt, alloc, *fill == "1", &device, [*fuses, *vectors], text)
}
