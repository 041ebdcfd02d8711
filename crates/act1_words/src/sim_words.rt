ghost use Rattle.std.specs.Prelude.{◌≡◌, map, string_bytes, IfOk};
ghost use Rattle.clap.specs.Words.{app_of, first_value, found_of};
ghost use Rattle.act1_words.specs.Commands as commands;
ghost use Rattle.act1_words.specs.Commands.{sim_app, sim_asked};
ghost use Rattle.act1_words.specs.Given.{taken};

use crate::arguments::{number_at, parse, plain_command, text_at, with_file, with_number};
use crate::command::{Command, SimWords};
use act1_base::Memory;
use act1_frame::Word;
use clap::ArgMatches;
use std::alloc::Global;

// What `sim` takes.
fn sim_app<'a>(alloc: Global) -> Result<clap::Command<'a>, Memory>
    ensures { IfOk result (λ c. app_of c ≡ sim_app) }
{
    let plain = plain_command(alloc, "sim");
    let device = with_file(alloc, plain, "DEVICE")?;
    let fuses = with_file(alloc, device, "FUSES")?;
    let vectors = with_file(alloc, fuses, "VECTORS")?;
    let whole = with_number(alloc, vectors, "fill", 0, 1, "0")?;
    Ok(whole)
}

// The words that were found.
fn found_words(alloc: Global, matches: &ArgMatches) -> Result<SimWords, Memory>
    ensures { IfOk result (λ words. words ≡ commands.sim_words (first_value (found_of matches.now))) }
{
    Ok(SimWords {
        device: Word::new(alloc, text_at(matches, "DEVICE"))?,
        fuses: Word::new(alloc, text_at(matches, "FUSES"))?,
        vectors: Word::new(alloc, text_at(matches, "VECTORS"))?,
        fill: number_at(matches, "fill", 0) == 1,
    })
}

/// The command of words whose first is `sim`.
pub fn sim_command(alloc: Global, words: &[String]) -> Result<Command, Memory>
    ensures { IfOk result (λ command. command ≡ sim_asked (taken sim_app commands.sim_words (map string_bytes words.now))) }
{
    let app = sim_app(alloc)?;
    let parsed = parse(app, words)?;
    match parsed {
        Some(matches) => {
            let found = found_words(alloc, &matches)?;
            Ok(Command::Sim(found))
        }
        None => Ok(Command::Unknown),
    }
}
