ghost use Rattle.std.specs.Prelude.{◌≡◌, map, string_bytes, IfOk};
ghost use Rattle.clap.specs.Words.{app_of, first_value, found_of};
ghost use Rattle.act1_words.specs.Commands as commands;
ghost use Rattle.act1_words.specs.Commands.{extract_app, extract_asked};
ghost use Rattle.act1_words.specs.Given.{taken};

use crate::arguments::{parse, plain_command, text_at, with_file};
use crate::command::{Command, ExtractWords};
use act1_base::Memory;
use act1_frame::Word;
use clap::ArgMatches;
use std::alloc::Global;

// What `extract` takes.
fn extract_app<'a>(alloc: Global) -> Result<clap::Command<'a>, Memory>
    ensures { IfOk result (λ c. app_of c ≡ extract_app) }
{
    let plain = plain_command(alloc, "extract");
    let device = with_file(alloc, plain, "DEVICE")?;
    let fuses = with_file(alloc, device, "FUSES")?;
    let whole = with_file(alloc, fuses, "BLIF")?;
    Ok(whole)
}

// The words that were found.
fn found_words(alloc: Global, matches: &ArgMatches) -> Result<ExtractWords, Memory>
    ensures { IfOk result (λ words. words ≡ commands.extract_words (first_value (found_of matches.now))) }
{
    Ok(ExtractWords {
        device: Word::new(alloc, text_at(matches, "DEVICE"))?,
        fuses: Word::new(alloc, text_at(matches, "FUSES"))?,
        blif: Word::new(alloc, text_at(matches, "BLIF"))?,
    })
}

/// The command of words whose first is `extract`.
pub fn extract_command(alloc: Global, words: &[String]) -> Result<Command, Memory>
    ensures { IfOk result (λ command. command ≡ extract_asked (taken extract_app commands.extract_words (map string_bytes words.now))) }
{
    let app = extract_app(alloc)?;
    let parsed = parse(app, words)?;
    match parsed {
        Some(matches) => {
            let found = found_words(alloc, &matches)?;
            Ok(Command::Extract(found))
        }
        None => Ok(Command::Unknown),
    }
}
