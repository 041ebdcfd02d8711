ghost use Rattle.std.specs.Prelude.{◌≡◌, true, false, map, string_bytes, IfOk};
ghost use Rattle.std.specs.Option.{option_map_or};
ghost use Rattle.clap.specs.Words.{app_of, first_value, found_of, is_simple_and_free, rule_of, with_rule};
ghost use Rattle.act1_words.specs.Given as given;
ghost use Rattle.act1_words.specs.Given.{count_rule, file_rule, text_rule, number_rule, number_or_zero, plain_app, IsParseOf};

use act1_base::Memory;
use clap::builder::ValueParser;
use clap::error::ErrorKind;
use clap::{Arg, ArgMatches, Command};
use std::alloc::Global;

/// A command with neither a help flag nor a version flag.
#[tactic(auto, unfolding(crate::specs::Given::plain_app))]
pub fn plain_command<'a>(alloc: Global, name: &'a str) -> Command<'a>
    ensures { app_of result ≡ plain_app name.entry.now }
{
    Command::new(alloc, name)
        .disable_help_flag(true)
        .disable_version_flag(true)
}

#[tactic(auto, unfolding(crate::specs::Given::file_rule))]
fn file_argument<'a>(alloc: Global, id: &'a str) -> Arg<'a>
    ensures rule { rule_of result ≡ file_rule id.entry.now }
    ensures local { result.global ≡ false }
{
    Arg::new(alloc, id).required(true)
}

#[tactic(auto, unfolding(crate::specs::Given::text_rule))]
fn text_argument<'a>(alloc: Global, id: &'a str) -> Arg<'a>
    ensures rule { rule_of result ≡ text_rule id.entry.now }
    ensures local { result.global ≡ false }
{
    Arg::new(alloc, id).long(id)
}

#[tactic(auto, unfolding(crate::specs::Given::number_rule))]
fn number_argument<'a>(alloc: Global, id: &'a str, low: u64, high: u64, default: &'a str) -> Arg<'a>
    ensures rule { rule_of result ≡ number_rule id.entry.now low high default.entry.now }
    ensures local { result.global ≡ false }
{
    Arg::new(alloc, id)
        .long(id)
        .value_parser(ValueParser::unsigned(low, high))
        .default_value(default)
}

#[tactic(auto, unfolding(crate::specs::Given::count_rule))]
fn count_argument<'a>(alloc: Global, id: &'a str, low: u64, high: u64) -> Arg<'a>
    ensures rule { rule_of result ≡ count_rule id.entry.now low high }
    ensures local { result.global ≡ false }
{
    Arg::new(alloc, id)
        .required(true)
        .value_parser(ValueParser::unsigned(low, high))
}

/// Adds a positional that has to be there.
pub fn with_file<'a>(
    alloc: Global,
    command: Command<'a>,
    id: &'a str,
) -> Result<Command<'a>, Memory>
    ensures { IfOk result (λ c. app_of c ≡ with_rule (app_of command.entry) (file_rule id.entry.now)) }
{
    Ok(command.arg(file_argument(alloc, id))?)
}

/// Adds a positional that has to be there, a number in a range.
pub fn with_count<'a>(
    alloc: Global,
    command: Command<'a>,
    id: &'a str,
    low: u64,
    high: u64,
) -> Result<Command<'a>, Memory>
    ensures { IfOk result (λ c. app_of c ≡ with_rule (app_of command.entry) (count_rule id.entry.now low high)) }
{
    Ok(command.arg(count_argument(alloc, id, low, high))?)
}

/// Adds an option of one text.
pub fn with_text<'a>(
    alloc: Global,
    command: Command<'a>,
    id: &'a str,
) -> Result<Command<'a>, Memory>
    ensures { IfOk result (λ c. app_of c ≡ with_rule (app_of command.entry) (text_rule id.entry.now)) }
{
    Ok(command.arg(text_argument(alloc, id))?)
}

/// Adds an option of one number in a range, with a default.
pub fn with_number<'a>(
    alloc: Global,
    command: Command<'a>,
    id: &'a str,
    low: u64,
    high: u64,
    default: &'a str,
) -> Result<Command<'a>, Memory>
    ensures { IfOk result (λ c. app_of c ≡ with_rule (app_of command.entry) (number_rule id.entry.now low high default.entry.now)) }
{
    Ok(command.arg(number_argument(alloc, id, low, high, default))?)
}

/// What the words, of which the first is the command's name, give to the command; `None` where it doesn't take
/// them.
pub fn parse<'a>(
    command: Command<'a>,
    words: &'a [String],
) -> Result<Option<ArgMatches<'a>>, Memory>
    requires { is_simple_and_free (app_of command) ≡ true }
    ensures { IfOk result (IsParseOf (app_of command.entry) (map string_bytes words.entry.now)) }
{
    match command.try_get_matches_from(words) {
        Ok(matches) => Ok(Some(matches)),
        Err(e) => {
            if e.kind() == ErrorKind::OutOfMemory {
                Err(Memory)
            } else {
                Ok(None)
            }
        }
    }
}

/// The text of an id, and the empty one where it has none.
pub fn text_at<'a>(matches: &ArgMatches<'a>, id: &str) -> &'a str
    ensures { result.now ≡ given.text_at (first_value (found_of matches.now)) id.now }
{
    match matches.get_str(id) {
        Some(text) => text,
        None => "",
    }
}

// The number that the text spells, or the default where there is none.
fn number_or(text: Option<&str>, default: u64) -> u64
    ensures { result ≡ option_map_or (λ s. number_or_zero s.now) text.entry default }
{
    match text {
        Some(text) => text.parse::<u64>().unwrap_or(0),
        None => default,
    }
}

/// The number of an id, and the default where it has none.
pub fn number_at(matches: &ArgMatches, id: &str, default: u64) -> u64
    ensures { result ≡ given.number_at (first_value (found_of matches.now)) id.now default }
{
    number_or(matches.get_str(id), default)
}
