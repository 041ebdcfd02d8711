ghost use Rattle.std.specs.Prelude.{◌≡◌, map, string_bytes, IfOk};
ghost use Rattle.act1_words.specs.Commands.{command_of, AreInRanges};

use crate::blif_words::blif_command;
use crate::check_words::check_command;
use crate::command::Command;
use crate::cover_words::cover_command;
use crate::demo_words::demo_command;
use crate::extract_words::extract_command;
use crate::flow_words::flow_command;
use crate::search_words::search_command;
use crate::sim_words::sim_command;
use act1_base::Memory;
use std::alloc::Global;

/// The command that the words ask for, or `Unknown` where they ask for none.
///
/// The first word names it: `flow DEVICE BLIF FUSES REPORT [--k N] [--budget N] [--seed N] [--jobs N] [--with
/// PROGRAM]`, `sim DEVICE FUSES VECTORS [--fill N]`, `extract DEVICE FUSES BLIF`, `check DEVICE REPORT`, `search JOB
/// ANSWER`, `cover BLIF`, `blif BLIF` or `demo DEVICE N FUSES`. `clap`
/// reads the words as one simple command of that name, without help and version flags: a word that begins with `-` is an option, but
/// for `-` itself and what stands behind `--`; each option stands once at most, as `--k N` or `--k=N`, its number
/// within its range. `Unknown` comes exactly where there is no such first word, `clap` refuses the words, or
/// `--jobs` is above 0 and `--with` names no program.
#[tactic(auto, unfolding(crate::specs::Commands::command_of))]
pub fn command_of(alloc: Global, words: &[String]) -> Result<Command, Memory>
    ensures is { IfOk result (λ command. command ≡ command_of (map string_bytes words.now)) }
    ensures ranges { IfOk result AreInRanges }
{
    let Some(word) = words.first() else {
        return Ok(Command::Unknown);
    };
    if word.as_str() == "flow" {
        flow_command(alloc, words)
    } else if word.as_str() == "sim" {
        sim_command(alloc, words)
    } else if word.as_str() == "extract" {
        extract_command(alloc, words)
    } else if word.as_str() == "check" {
        check_command(alloc, words)
    } else if word.as_str() == "search" {
        search_command(alloc, words)
    } else if word.as_str() == "cover" {
        cover_command(alloc, words)
    } else if word.as_str() == "blif" {
        blif_command(alloc, words)
    } else if word.as_str() == "demo" {
        demo_command(alloc, words)
    } else {
        Ok(Command::Unknown)
    }
}
