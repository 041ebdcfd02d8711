ghost use Rattle.std.specs.Prelude.{IfOk, IfErr};
ghost use Rattle.act1_frame.specs.Reading.{OnlyRead};
ghost use Rattle.act1_frame.specs.Stages.{OnStop};
ghost use Rattle.act1_top.specs.CoverCommand.{CoverEnds, CoverMayEnd};

use crate::found::netlist_under;
use act1_base::HashSeed;
use act1_blif::Blif;
use act1_cover::cover_text;
use act1_frame::{Ending, Stop, with_text};
use act1_outside::Files;
use act1_words::CoverWords;
use std::alloc::Global;

// The least covers of the nodes of a netlist.
fn cover_ends(alloc: Global, net: &Blif) -> Result<Ending, Stop>
    ensures ok { IfOk result (CoverEnds net.now) }
    ensures err { IfErr result (OnStop (CoverEnds net.now)) }
{
    let text = cover_text(alloc, net)?;
    Ok(with_text(0, text))
}

/// The stages of `cover` in their order.
pub fn cover_ending<F: Files>(
    alloc: Global,
    seed: HashSeed,
    files: &mut F,
    words: &CoverWords,
) -> Result<Ending, Stop>
    ensures ok { IfOk result (CoverMayEnd words.now (F.seen files.old) (F.seen files.new)) }
    ensures err { IfErr result (OnStop (CoverMayEnd words.now (F.seen files.old) (F.seen files.new))) }
    ensures files { OnlyRead (F.seen files.old) (F.seen files.new) }
{
    let net = netlist_under(alloc, seed, files, &words.blif)?;
    cover_ends(alloc, &net)
}
