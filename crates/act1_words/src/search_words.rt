ghost use Rattle.std.specs.Prelude.{◌≡◌, map, string_bytes, IfOk};
ghost use Rattle.clap.specs.Words.{app_of, first_value, found_of};
ghost use Rattle.act1_words.specs.Commands as commands;
ghost use Rattle.act1_words.specs.Commands.{search_app, search_asked};
ghost use Rattle.act1_words.specs.Given.{taken};

use crate::arguments::{parse, plain_command, text_at, with_file};
use crate::command::{Command, SearchWords};
use act1_base::Memory;
use act1_frame::Word;
use clap::ArgMatches;
use std::alloc::Global;

// What `search` takes.
fn search_app<'a>(alloc: Global) -> Result<clap::Command<'a>, Memory>
    ensures { IfOk result (λ c. app_of c ≡ search_app) }
{
    let plain = plain_command(alloc, "search");
    let job = with_file(alloc, plain, "JOB")?;
    let whole = with_file(alloc, job, "ANSWER")?;
    Ok(whole)
}

// The words that were found.
fn found_words(alloc: Global, matches: &ArgMatches) -> Result<SearchWords, Memory>
    ensures { IfOk result (λ words. words ≡ commands.search_words (first_value (found_of matches.now))) }
{
    Ok(SearchWords {
        job: Word::new(alloc, text_at(matches, "JOB"))?,
        answer: Word::new(alloc, text_at(matches, "ANSWER"))?,
    })
}

/// The command of words whose first is `search`.
pub fn search_command(alloc: Global, words: &[String]) -> Result<Command, Memory>
    ensures { IfOk result (λ command. command ≡ search_asked (taken search_app commands.search_words (map string_bytes words.now))) }
{
    let app = search_app(alloc)?;
    let parsed = parse(app, words)?;
    match parsed {
        Some(matches) => {
            let found = found_words(alloc, &matches)?;
            Ok(Command::Search(found))
        }
        None => Ok(Command::Unknown),
    }
}
