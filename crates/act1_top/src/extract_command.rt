ghost use Rattle.std.specs.Prelude.{◌≡◌, IfOk, IfErr};
ghost use Rattle.act1_frame.specs.Reading.{OnlyRead};
ghost use Rattle.act1_frame.specs.Stages.{OnStop};
ghost use Rattle.act1_fuses.specs.Rules.{KeepsRules};
ghost use Rattle.act1_top.specs.ExtractCommand.{ExtractEnds, ExtractMayEnd, extract_refusal, extracted_ending};

use crate::flow_lines::write_extracted;
use crate::found::{device_under, fuses_under};
use act1_base::{HashSeed, Items, Memory};
use act1_blif::{Blif, blif_text};
use act1_device::Device;
use act1_extract::{ExtractFault, extract, write_extract_fault};
use act1_frame::{Ending, FileText, Stop, Word, with_text};
use act1_fuses::FuseFile;
use act1_outside::Files;
use act1_words::ExtractWords;
use std::alloc::Global;

// The ending of an array that isn't extracted.
fn refused_ending(alloc: Global, fault: ExtractFault) -> Result<Ending, Memory>
    ensures { IfOk result (λ ending. ending ≡ extract_refusal fault) }
{
    let mut text = Vec::new(alloc);
    write_extract_fault(&mut text, fault)?;
    Ok(with_text(13, text))
}

// The ending that writes the text of a netlist under the name.
fn extracted_ending(alloc: Global, name: &Word, net: &Blif) -> Result<Ending, Memory>
    ensures { IfOk result (λ ending. ending ≡ extracted_ending name.now net.now) }
{
    let mut text = Vec::new(alloc);
    write_extracted(&mut text, net.latches.len() as u64, net.nodes.len() as u64)?;
    let bytes = blif_text(alloc, net)?;
    let file = FileText {
        name: Word::new(alloc, name.as_str())?,
        bytes: Items::from_vec(bytes),
    };
    Ok(Ending {
        status: 0,
        text: Items::from_vec(text),
        file: Some(file),
    })
}

// The netlist of an array.
fn extract_ends(
    alloc: Global,
    device: &Device,
    file: &FuseFile,
    name: &Word,
) -> Result<Ending, Stop>
    requires { KeepsRules device.now file.now }
    ensures ok { IfOk result (ExtractEnds name.now device.now file.now) }
    ensures err { IfErr result (OnStop (ExtractEnds name.now device.now file.now)) }
{
    match extract(alloc, device, file) {
        Ok(net) => Ok(extracted_ending(alloc, name, &net)?),
        Err(ExtractFault::Memory) => Err(Stop::Memory),
        Err(fault) => Ok(refused_ending(alloc, fault)?),
    }
}

/// The stages of `extract` in their order.
pub fn extract_ending<F: Files>(
    alloc: Global,
    seed: HashSeed,
    files: &mut F,
    words: &ExtractWords,
) -> Result<Ending, Stop>
    ensures ok { IfOk result (ExtractMayEnd words.now (F.seen files.old) (F.seen files.new)) }
    ensures err { IfErr result (OnStop (ExtractMayEnd words.now (F.seen files.old) (F.seen files.new))) }
    ensures files { OnlyRead (F.seen files.old) (F.seen files.new) }
{
    let device = device_under(alloc, files, &words.device)?;
    let file = fuses_under(alloc, seed, files, &device, &words.fuses)?;
    extract_ends(alloc, &device, &file, &words.blif)
}
