ghost use Rattle.std.specs.Prelude.{◌≡◌, map, IfOk, IfErr};
ghost use Rattle.std.specs.String.{string_bytes};
ghost use Rattle.act1_frame.specs.Reading.{OnlyRead};
ghost use Rattle.act1_frame.specs.Stages.{OnStop};
ghost use Rattle.act1_top.specs.Run.{HelpersAre, MayEnd, usage_ending};
ghost use Rattle.act1_words.specs.Commands.{command_of, AreInRanges};

use crate::blif_command::blif_ending;
use crate::check_command::check_ending;
use crate::cover_command::cover_ending;
use crate::demo_command::demo_ending;
use crate::extract_command::extract_ending;
use crate::flow_command::flow_ending;
use crate::search_command::search_ending;
use crate::sim_command::sim_ending;
use act1_base::{HashSeed, Memory, write_word};
use act1_frame::{Ending, Stop, with_text};
use act1_outside::{Files, Helpers};
use act1_words::{Command, command_of};
use std::alloc::Global;

// The ending of words that are no command.
fn usage_ending(alloc: Global) -> Result<Ending, Memory>
    ensures { IfOk result (λ ending. ending ≡ usage_ending) }
{
    let mut text = Vec::new(alloc);
    write_word(
        &mut text,
        b"usage: act1 flow|sim|extract|check|search|cover|blif|demo",
    )?;
    Ok(with_text(1, text))
}

// How the command ends.
fn ending_of<F: Files, H: Helpers>(
    alloc: Global,
    seed: HashSeed,
    files: &mut F,
    helpers: &mut H,
    command: &Command,
) -> Result<Ending, Stop>
    requires { AreInRanges command.now }
    ensures ok { IfOk result (MayEnd command.now (H.seen helpers.old) (H.seen helpers.new) (F.seen files.old) (F.seen files.new)) }
    ensures err { IfErr result (OnStop (MayEnd command.now (H.seen helpers.old) (H.seen helpers.new) (F.seen files.old) (F.seen files.new))) }
    ensures files { OnlyRead (F.seen files.old) (F.seen files.new) }
    ensures helpers { HelpersAre command.now (F.seen files.old) (H.seen helpers.old) (H.seen helpers.new) }
{
    match command {
        Command::Unknown => Ok(usage_ending(alloc)?),
        Command::Flow(words) => flow_ending(alloc, seed, files, helpers, words),
        Command::Sim(words) => sim_ending(alloc, seed, files, words),
        Command::Extract(words) => extract_ending(alloc, seed, files, words),
        Command::Check(words) => check_ending(alloc, files, words),
        Command::Search(words) => search_ending(alloc, files, words),
        Command::Cover(words) => cover_ending(alloc, seed, files, words),
        Command::Blif(words) => blif_ending(alloc, seed, files, words),
        Command::Demo(words) => demo_ending(alloc, files, words),
    }
}

/// How the command that the words ask for ends. Files are read and helpers asked; nothing is written or
/// printed yet.
pub fn decide<F: Files, H: Helpers>(
    alloc: Global,
    seed: HashSeed,
    words: &[String],
    files: &mut F,
    helpers: &mut H,
) -> Result<Ending, Memory>
    ensures ending { IfOk result (MayEnd (command_of (map string_bytes words.now)) (H.seen helpers.old) (H.seen helpers.new) (F.seen files.old) (F.seen files.new)) }
    ensures files { OnlyRead (F.seen files.old) (F.seen files.new) }
    ensures helpers { HelpersAre (command_of (map string_bytes words.now)) (F.seen files.old) (H.seen helpers.old) (H.seen helpers.new) }
{
    let command = command_of(alloc, words)?;
    match ending_of(alloc, seed, files, helpers, &command) {
        Ok(ending) => Ok(ending),
        Err(Stop::Ends(ending)) => Ok(ending),
        Err(Stop::Memory) => Err(Memory),
    }
}
