ghost use Rattle.std.specs.Prelude.{IfOk, IfErr};
ghost use Rattle.act1_frame.specs.Reading.{OnlyRead};
ghost use Rattle.act1_frame.specs.Stages.{OnStop};
ghost use Rattle.act1_top.specs.BlifCommand.{BlifEnds, BlifMayEnd};

use crate::found::netlist_under;
use act1_base::HashSeed;
use act1_blif::{Blif, blif_text};
use act1_frame::{Ending, Stop, with_text};
use act1_outside::Files;
use act1_words::BlifWords;
use std::alloc::Global;

// The canonical text of a netlist.
fn blif_ends(alloc: Global, net: &Blif) -> Result<Ending, Stop>
    ensures ok { IfOk result (BlifEnds net.now) }
    ensures err { IfErr result (OnStop (BlifEnds net.now)) }
{
    let text = blif_text(alloc, net)?;
    Ok(with_text(0, text))
}

/// The stages of `blif` in their order.
pub fn blif_ending<F: Files>(
    alloc: Global,
    seed: HashSeed,
    files: &mut F,
    words: &BlifWords,
) -> Result<Ending, Stop>
    ensures ok { IfOk result (BlifMayEnd words.now (F.seen files.old) (F.seen files.new)) }
    ensures err { IfErr result (OnStop (BlifMayEnd words.now (F.seen files.old) (F.seen files.new))) }
    ensures files { OnlyRead (F.seen files.old) (F.seen files.new) }
{
    let net = netlist_under(alloc, seed, files, &words.blif)?;
    blif_ends(alloc, &net)
}
