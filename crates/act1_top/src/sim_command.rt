ghost use Rattle.std.specs.Prelude.{◌≡◌, ◌≤◌, length, IfOk, IfErr};
ghost use Rattle.act1_fuses.specs.Rules.{KeepsRules};
ghost use Rattle.act1_frame.specs.Reading.{OnlyRead};
ghost use Rattle.act1_frame.specs.Stages.{OnStop};
ghost use Rattle.act1_top.specs.SimCommand.{SimEnds, SimMayEnd, sim_status, sim_refusal};

use crate::found::{bytes_under, device_under, fuses_under};
use act1_base::{HashSeed, Memory};
use act1_device::Device;
use act1_frame::{Ending, Stop, with_text};
use act1_fuses::FuseFile;
use act1_outside::Files;
use act1_sim::{SimFault, simulate, write_sim_fault};
use act1_words::SimWords;
use std::alloc::Global;

// The status of a refusal to simulate.
fn sim_status(fault: SimFault) -> u8
    ensures { result ≡ sim_status fault }
{
    match fault {
        SimFault::Array(_) => 13,
        SimFault::Vector(_) => 7,
        SimFault::Unsettled { .. } => 14,
        SimFault::Memory => 15,
    }
}

// The ending of an array that isn't simulated.
fn refused_ending(alloc: Global, fault: SimFault) -> Result<Ending, Memory>
    ensures { IfOk result (λ ending. ending ≡ sim_refusal fault) }
{
    let mut text = Vec::new(alloc);
    write_sim_fault(&mut text, fault)?;
    Ok(with_text(sim_status(fault), text))
}

// The array over the vectors, where a module without a declared start begins with the fill.
fn sim_ends(
    alloc: Global,
    device: &Device,
    file: &FuseFile,
    vectors: &[u8],
    fill: bool,
) -> Result<Ending, Stop>
    requires keeps { KeepsRules device.now file.now }
    requires few { length vectors.now ≤ 4000000000 }
    ensures ok { IfOk result (SimEnds fill device.now file.now vectors.now) }
    ensures err { IfErr result (OnStop (SimEnds fill device.now file.now vectors.now)) }
{
    match simulate(alloc, device, file, vectors, fill) {
        Ok(text) => Ok(with_text(0, text)),
        Err(SimFault::Memory) => Err(Stop::Memory),
        Err(fault) => Ok(refused_ending(alloc, fault)?),
    }
}

/// The stages of `sim` in their order.
pub fn sim_ending<F: Files>(
    alloc: Global,
    seed: HashSeed,
    files: &mut F,
    words: &SimWords,
) -> Result<Ending, Stop>
    ensures ok { IfOk result (SimMayEnd words.now (F.seen files.old) (F.seen files.new)) }
    ensures err { IfErr result (OnStop (SimMayEnd words.now (F.seen files.old) (F.seen files.new))) }
    ensures files { OnlyRead (F.seen files.old) (F.seen files.new) }
{
    let device = device_under(alloc, files, &words.device)?;
    let file = fuses_under(alloc, seed, files, &device, &words.fuses)?;
    let bytes = bytes_under(alloc, files, &words.vectors)?;
    sim_ends(alloc, &device, &file, &bytes, words.fill)
}
