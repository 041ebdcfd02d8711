ghost use Rattle.std.specs.Prelude.{◌≡◌, map, string_bytes, IfOk};
ghost use Rattle.clap.specs.Words.{app_of, first_value, found_of};
ghost use Rattle.act1_words.specs.Commands as commands;
ghost use Rattle.act1_words.specs.Commands.{cover_app, cover_asked};
ghost use Rattle.act1_words.specs.Given.{taken};

use crate::arguments::{parse, plain_command, text_at, with_file};
use crate::command::{Command, CoverWords};
use act1_base::Memory;
use act1_frame::Word;
use clap::ArgMatches;
use std::alloc::Global;

// What `cover` takes.
fn cover_app<'a>(alloc: Global) -> Result<clap::Command<'a>, Memory>
    ensures { IfOk result (λ c. app_of c ≡ cover_app) }
{
    let plain = plain_command(alloc, "cover");
    let whole = with_file(alloc, plain, "BLIF")?;
    Ok(whole)
}

// The words that were found.
fn found_words(alloc: Global, matches: &ArgMatches) -> Result<CoverWords, Memory>
    ensures { IfOk result (λ words. words ≡ commands.cover_words (first_value (found_of matches.now))) }
{
    Ok(CoverWords {
        blif: Word::new(alloc, text_at(matches, "BLIF"))?,
    })
}

/// The command of words whose first is `cover`.
pub fn cover_command(alloc: Global, words: &[String]) -> Result<Command, Memory>
    ensures { IfOk result (λ command. command ≡ cover_asked (taken cover_app commands.cover_words (map string_bytes words.now))) }
{
    let app = cover_app(alloc)?;
    let parsed = parse(app, words)?;
    match parsed {
        Some(matches) => {
            let found = found_words(alloc, &matches)?;
            Ok(Command::Cover(found))
        }
        None => Ok(Command::Unknown),
    }
}
