ghost use Rattle.std.specs.Prelude.{◌≡◌, map, string_bytes, IfOk, IfSome};
ghost use Rattle.clap.specs.Words.{app_of, first_value, found_of};
ghost use Rattle.act1_words.specs.Commands as commands;
ghost use Rattle.act1_words.specs.Commands.{flow_app, flow_asked, lacks_program, AreInRanges, IsInRanges};
ghost use Rattle.act1_words.specs.Given.{taken};

use crate::arguments::{
    number_at, parse, plain_command, text_at, with_file, with_number, with_text,
};
use crate::command::{Command, FlowWords};
use act1_base::Memory;
use act1_frame::Word;
use clap::ArgMatches;
use std::alloc::Global;

// What `flow` takes.
fn flow_app<'a>(alloc: Global) -> Result<clap::Command<'a>, Memory>
    ensures { IfOk result (λ c. app_of c ≡ flow_app) }
{
    let plain = plain_command(alloc, "flow");
    let device = with_file(alloc, plain, "DEVICE")?;
    let blif = with_file(alloc, device, "BLIF")?;
    let fuses = with_file(alloc, blif, "FUSES")?;
    let report = with_file(alloc, fuses, "REPORT")?;
    let k = with_number(alloc, report, "k", 1, 64, "3")?;
    let budget = with_number(alloc, k, "budget", 1, 1_000_000_000_000, "100000")?;
    let seed = with_number(alloc, budget, "seed", 0, u64::MAX, "0")?;
    let jobs = with_number(alloc, seed, "jobs", 0, 64, "0")?;
    let whole = with_text(alloc, jobs, "with")?;
    Ok(whole)
}

// The words that were found.
fn found_words(alloc: Global, matches: &ArgMatches) -> Result<FlowWords, Memory>
    ensures { IfOk result (λ words. words ≡ commands.flow_words (first_value (found_of matches.now))) }
{
    Ok(FlowWords {
        device: Word::new(alloc, text_at(matches, "DEVICE"))?,
        blif: Word::new(alloc, text_at(matches, "BLIF"))?,
        fuses: Word::new(alloc, text_at(matches, "FUSES"))?,
        report: Word::new(alloc, text_at(matches, "REPORT"))?,
        k: number_at(matches, "k", 3),
        budget: number_at(matches, "budget", 100_000),
        seed: number_at(matches, "seed", 0),
        jobs: number_at(matches, "jobs", 0),
        program: Word::new(alloc, text_at(matches, "with"))?,
    })
}

// The words, where they are taken.
fn taken_words(alloc: Global, words: &[String]) -> Result<Option<FlowWords>, Memory>
    ensures is { IfOk result (λ given. given ≡ taken flow_app commands.flow_words (map string_bytes words.now)) }
    ensures ranges { IfOk result (λ given. IfSome given IsInRanges) }
{
    let app = flow_app(alloc)?;
    let parsed = parse(app, words)?;
    match parsed {
        Some(matches) => {
            let found = found_words(alloc, &matches)?;
            Ok(Some(found))
        }
        None => Ok(None),
    }
}

// Whether helpers are asked for, and no program is named.
fn lacks_program(words: &FlowWords) -> bool
    ensures { result ≡ lacks_program words.now }
{
    words.jobs > 0 && words.program.as_str().is_empty()
}

/// The command of words whose first is `flow`.
pub fn flow_command(alloc: Global, words: &[String]) -> Result<Command, Memory>
    ensures is { IfOk result (λ command. command ≡ flow_asked (taken flow_app commands.flow_words (map string_bytes words.now))) }
    ensures ranges { IfOk result AreInRanges }
{
    match taken_words(alloc, words)? {
        Some(given) => {
            if lacks_program(&given) {
                Ok(Command::Unknown)
            } else {
                Ok(Command::Flow(given))
            }
        }
        None => Ok(Command::Unknown),
    }
}
