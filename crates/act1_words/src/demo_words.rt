ghost use Rattle.std.specs.Prelude.{◌≡◌, map, string_bytes, IfOk};
ghost use Rattle.clap.specs.Words.{app_of, first_value, found_of};
ghost use Rattle.act1_words.specs.Commands as commands;
ghost use Rattle.act1_words.specs.Commands.{demo_app, demo_asked, AreInRanges};
ghost use Rattle.act1_words.specs.Given.{taken};

use crate::arguments::{number_at, parse, plain_command, text_at, with_count, with_file};
use crate::command::{Command, DemoWords};
use act1_base::Memory;
use act1_frame::Word;
use clap::ArgMatches;
use std::alloc::Global;

// What `demo` takes.
fn demo_app<'a>(alloc: Global) -> Result<clap::Command<'a>, Memory>
    ensures { IfOk result (λ c. app_of c ≡ demo_app) }
{
    let plain = plain_command(alloc, "demo");
    let device = with_file(alloc, plain, "DEVICE")?;
    let bits = with_count(alloc, device, "N", 1, 64)?;
    let whole = with_file(alloc, bits, "FUSES")?;
    Ok(whole)
}

// The words that were found.
fn found_words(alloc: Global, matches: &ArgMatches) -> Result<DemoWords, Memory>
    ensures { IfOk result (λ words. words ≡ commands.demo_words (first_value (found_of matches.now))) }
{
    Ok(DemoWords {
        device: Word::new(alloc, text_at(matches, "DEVICE"))?,
        bits: number_at(matches, "N", 1),
        fuses: Word::new(alloc, text_at(matches, "FUSES"))?,
    })
}

/// The command of words whose first is `demo`.
pub fn demo_command(alloc: Global, words: &[String]) -> Result<Command, Memory>
    ensures is { IfOk result (λ command. command ≡ demo_asked (taken demo_app commands.demo_words (map string_bytes words.now))) }
    ensures ranges { IfOk result AreInRanges }
{
    let app = demo_app(alloc)?;
    let parsed = parse(app, words)?;
    match parsed {
        Some(matches) => {
            let found = found_words(alloc, &matches)?;
            Ok(Command::Demo(found))
        }
        None => Ok(Command::Unknown),
    }
}
