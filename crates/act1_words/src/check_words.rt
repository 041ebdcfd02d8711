ghost use Rattle.std.specs.Prelude.{◌≡◌, map, string_bytes, IfOk};
ghost use Rattle.clap.specs.Words.{app_of, first_value, found_of};
ghost use Rattle.act1_words.specs.Commands as commands;
ghost use Rattle.act1_words.specs.Commands.{check_app, check_asked};
ghost use Rattle.act1_words.specs.Given.{taken};

use crate::arguments::{parse, plain_command, text_at, with_file};
use crate::command::{CheckWords, Command};
use act1_base::Memory;
use act1_frame::Word;
use clap::ArgMatches;
use std::alloc::Global;

// What `check` takes.
fn check_app<'a>(alloc: Global) -> Result<clap::Command<'a>, Memory>
    ensures { IfOk result (λ c. app_of c ≡ check_app) }
{
    let plain = plain_command(alloc, "check");
    let device = with_file(alloc, plain, "DEVICE")?;
    let whole = with_file(alloc, device, "REPORT")?;
    Ok(whole)
}

// The words that were found.
fn found_words(alloc: Global, matches: &ArgMatches) -> Result<CheckWords, Memory>
    ensures { IfOk result (λ words. words ≡ commands.check_words (first_value (found_of matches.now))) }
{
    Ok(CheckWords {
        device: Word::new(alloc, text_at(matches, "DEVICE"))?,
        report: Word::new(alloc, text_at(matches, "REPORT"))?,
    })
}

/// The command of words whose first is `check`.
pub fn check_command(alloc: Global, words: &[String]) -> Result<Command, Memory>
    ensures { IfOk result (λ command. command ≡ check_asked (taken check_app commands.check_words (map string_bytes words.now))) }
{
    let app = check_app(alloc)?;
    let parsed = parse(app, words)?;
    match parsed {
        Some(matches) => {
            let found = found_words(alloc, &matches)?;
            Ok(Command::Check(found))
        }
        None => Ok(Command::Unknown),
    }
}
