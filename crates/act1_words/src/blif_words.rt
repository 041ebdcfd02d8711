ghost use Rattle.std.specs.Prelude.{◌≡◌, map, string_bytes, IfOk};
ghost use Rattle.clap.specs.Words.{app_of, first_value, found_of};
ghost use Rattle.act1_words.specs.Commands as commands;
ghost use Rattle.act1_words.specs.Commands.{blif_app, blif_asked};
ghost use Rattle.act1_words.specs.Given.{taken};

use crate::arguments::{parse, plain_command, text_at, with_file};
use crate::command::{BlifWords, Command};
use act1_base::Memory;
use act1_frame::Word;
use clap::ArgMatches;
use std::alloc::Global;

// What `blif` takes.
fn blif_app<'a>(alloc: Global) -> Result<clap::Command<'a>, Memory>
    ensures { IfOk result (λ c. app_of c ≡ blif_app) }
{
    let plain = plain_command(alloc, "blif");
    let whole = with_file(alloc, plain, "BLIF")?;
    Ok(whole)
}

// The words that were found.
fn found_words(alloc: Global, matches: &ArgMatches) -> Result<BlifWords, Memory>
    ensures { IfOk result (λ words. words ≡ commands.blif_words (first_value (found_of matches.now))) }
{
    Ok(BlifWords {
        blif: Word::new(alloc, text_at(matches, "BLIF"))?,
    })
}

/// The command of words whose first is `blif`.
pub fn blif_command(alloc: Global, words: &[String]) -> Result<Command, Memory>
    ensures { IfOk result (λ command. command ≡ blif_asked (taken blif_app commands.blif_words (map string_bytes words.now))) }
{
    let app = blif_app(alloc)?;
    let parsed = parse(app, words)?;
    match parsed {
        Some(matches) => {
            let found = found_words(alloc, &matches)?;
            Ok(Command::Blif(found))
        }
        None => Ok(Command::Unknown),
    }
}
