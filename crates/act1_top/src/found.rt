ghost use Rattle.std.specs.Prelude.{◌≡◌, ◌≤◌, length, IfOk, IfErr};
ghost use Rattle.act1_base.specs.Words.{text_line};
ghost use Rattle.act1_devread.specs.Text.{DeviceText};
ghost use Rattle.act1_blifread.specs.Text.{BlifText};
ghost use Rattle.act1_fuses.specs.Reads.{IsTextOf};
ghost use Rattle.act1_frame.specs.Reading.{Found, AreBytes, OnlyRead};
ghost use Rattle.act1_frame.specs.Stages.{FileStops, NeverRefused, OnStop};
ghost use Rattle.act1_top.specs.Files.{most_bytes, file_of, DeviceRefused, NetlistRefused, FusesRefused, JobText, JobRefused, job_fault_words};

use act1_base::{HashSeed, Memory, add_number};
use act1_blif::Blif;
use act1_blifread::{BlifKind, read_blif};
use act1_bliftext::write_blif_fault;
use act1_device::Device;
use act1_devread::{DeviceKind, read_device, write_device_fault};
use act1_frame::{Stop, Word, read, with_text};
use act1_fuses::{FuseFile, FuseKind, read_fuses, write_fuse_fault};
use act1_job::{Job, JobFault, read_job};
use act1_outside::Files;
use std::alloc::Global;

// The most bytes that are read of a file: 16 MiB.
const MOST_BYTES: u64 = 16_777_216;

// The device that a device file's bytes state.
fn device_of(alloc: Global, bytes: &[u8]) -> Result<Device, Stop>
    ensures ok { IfOk result (DeviceText bytes.now) }
    ensures err { IfErr result (OnStop (DeviceRefused bytes.now)) }
{
    match read_device(alloc, bytes) {
        Ok(device) => Ok(device),
        Err(fault) => {
            if fault.kind == DeviceKind::Memory {
                return Err(Stop::Memory);
            }
            let mut text = Vec::new(alloc);
            write_device_fault(&mut text, fault)?;
            Err(Stop::Ends(with_text(5, text)))
        }
    }
}

// The netlist that a BLIF file's bytes state.
fn netlist_of(alloc: Global, seed: HashSeed, bytes: &[u8]) -> Result<Blif, Stop>
    requires { length bytes.now ≤ 4000000000 }
    ensures ok { IfOk result (BlifText bytes.now) }
    ensures err { IfErr result (OnStop (NetlistRefused bytes.now)) }
{
    match read_blif(alloc, seed, bytes) {
        Ok(net) => Ok(net),
        Err(fault) => match fault.kind {
            BlifKind::Memory => Err(Stop::Memory),
            _ => {
                let mut text = Vec::new(alloc);
                write_blif_fault(&mut text, fault)?;
                Err(Stop::Ends(with_text(4, text)))
            }
        },
    }
}

// The antifuse file of a device that the bytes spell.
fn fuses_of(alloc: Global, seed: HashSeed, device: &Device, bytes: &[u8]) -> Result<FuseFile, Stop>
    requires { length bytes.now ≤ 4000000000 }
    ensures ok { IfOk result (λ file. IsTextOf device.now bytes.now file) }
    ensures err { IfErr result (OnStop (FusesRefused device.now bytes.now)) }
{
    match read_fuses(alloc, seed, device, bytes) {
        Ok(file) => Ok(file),
        Err(fault) => {
            if fault.kind == FuseKind::Memory {
                return Err(Stop::Memory);
            }
            let mut text = Vec::new(alloc);
            write_fuse_fault(&mut text, fault)?;
            Err(Stop::Ends(with_text(6, text)))
        }
    }
}

// What is printed of a job with a faulty line.
fn job_fault_text(alloc: Global, line: u32) -> Result<Vec<u8>, Memory>
    ensures { IfOk result (λ text. text.items ≡ text_line (job_fault_words «line»)) }
{
    let mut text = Vec::new(alloc);
    text.extend_from_slice(b"job line")?;
    add_number(&mut text, u64::from(line))?;
    text.push(b'\n')?;
    Ok(text)
}

// The job that the bytes spell.
fn job_of(alloc: Global, bytes: &[u8]) -> Result<Job, Stop>
    requires { length bytes.now ≤ 4000000000 }
    ensures ok { IfOk result (JobText bytes.now) }
    ensures err { IfErr result (OnStop (JobRefused bytes.now)) }
{
    match read_job(alloc, bytes) {
        Ok(job) => Ok(job),
        Err(JobFault::Line(line)) => Err(Stop::Ends(with_text(17, job_fault_text(alloc, line)?))),
        Err(JobFault::Memory) => Err(Stop::Memory),
    }
}

/// The device under a name.
pub fn device_under<F: Files>(alloc: Global, files: &mut F, name: &Word) -> Result<Device, Stop>
    ensures ok { IfOk result (Found DeviceText (F.seen files.old) (file_of name.now)) }
    ensures err { IfErr result (OnStop (FileStops DeviceRefused (F.seen files.old) (F.seen files.new) (file_of name.now))) }
    ensures files { OnlyRead (F.seen files.old) (F.seen files.new) }
{
    match read(alloc, files, name, MOST_BYTES) {
        Ok(bytes) => device_of(alloc, &bytes),
        Err(stop) => Err(stop),
    }
}

/// The netlist under a name.
pub fn netlist_under<F: Files>(
    alloc: Global,
    seed: HashSeed,
    files: &mut F,
    name: &Word,
) -> Result<Blif, Stop>
    ensures ok { IfOk result (Found BlifText (F.seen files.old) (file_of name.now)) }
    ensures err { IfErr result (OnStop (FileStops NetlistRefused (F.seen files.old) (F.seen files.new) (file_of name.now))) }
    ensures files { OnlyRead (F.seen files.old) (F.seen files.new) }
{
    match read(alloc, files, name, MOST_BYTES) {
        Ok(bytes) => netlist_of(alloc, seed, &bytes),
        Err(stop) => Err(stop),
    }
}

/// The antifuse file of a device under a name.
pub fn fuses_under<F: Files>(
    alloc: Global,
    seed: HashSeed,
    files: &mut F,
    device: &Device,
    name: &Word,
) -> Result<FuseFile, Stop>
    ensures ok { IfOk result (Found (IsTextOf device.now) (F.seen files.old) (file_of name.now)) }
    ensures err { IfErr result (OnStop (FileStops (FusesRefused device.now) (F.seen files.old) (F.seen files.new) (file_of name.now))) }
    ensures files { OnlyRead (F.seen files.old) (F.seen files.new) }
{
    match read(alloc, files, name, MOST_BYTES) {
        Ok(bytes) => fuses_of(alloc, seed, device, &bytes),
        Err(stop) => Err(stop),
    }
}

/// The job under a name.
pub fn job_under<F: Files>(alloc: Global, files: &mut F, name: &Word) -> Result<Job, Stop>
    ensures ok { IfOk result (Found JobText (F.seen files.old) (file_of name.now)) }
    ensures err { IfErr result (OnStop (FileStops JobRefused (F.seen files.old) (F.seen files.new) (file_of name.now))) }
    ensures files { OnlyRead (F.seen files.old) (F.seen files.new) }
{
    match read(alloc, files, name, MOST_BYTES) {
        Ok(bytes) => job_of(alloc, &bytes),
        Err(stop) => Err(stop),
    }
}

/// The bytes under a name.
pub fn bytes_under<F: Files>(alloc: Global, files: &mut F, name: &Word) -> Result<Vec<u8>, Stop>
    ensures ok { IfOk result (λ bytes. Found AreBytes (F.seen files.old) (file_of name.now) bytes.items) }
    ensures few { IfOk result (λ bytes. length bytes.items ≤ most_bytes) }
    ensures err { IfErr result (OnStop (FileStops NeverRefused (F.seen files.old) (F.seen files.new) (file_of name.now))) }
    ensures files { OnlyRead (F.seen files.old) (F.seen files.new) }
{
    read(alloc, files, name, MOST_BYTES)
}
