ghost use Rattle.std.specs.Prelude.{◌≡◌, ◌++◌, IfOk, OnOk};
ghost use Rattle.act1_base.specs.Words.{text_line};
ghost use Rattle.act1_logtext.specs.Logs.{log_text};
ghost use Rattle.act1_plan.specs.Texts.{plan_text};
ghost use Rattle.act1_report.specs.Texts.{header_words, channel_words, report_text};

use crate::report::Report;
use crate::table::{STEP, report_table};
use act1_base::{Memory, add_number, add_word, write_word};
use act1_channel::Log;
use act1_logtext::write_steps;
use act1_plan::{Plan, plan_text};
use std::alloc::Global;

// Adds the first line.
fn write_header(text: &mut Vec<u8>) -> Result<(), Memory>
    ensures { OnOk result (text.new.items ≡ text.old.items ++ text_line header_words) }
{
    text.extend_from_slice(b"act1")?;
    add_word(text, b"report")?;
    add_word(text, b"1")?;
    text.push(b'\n')?;
    Ok(())
}

// Adds the text of the plan.
fn write_plan(alloc: Global, text: &mut Vec<u8>, plan: &Plan) -> Result<(), Memory>
    ensures { OnOk result (text.new.items ≡ text.old.items ++ plan_text plan.now) }
{
    let lines = plan_text(alloc, plan)?;
    text.extend_from_slice(&lines)?;
    Ok(())
}

// Adds the line of the channel.
fn write_channel(text: &mut Vec<u8>, channel: u8) -> Result<(), Memory>
    ensures { OnOk result (text.new.items ≡ text.old.items ++ text_line (channel_words channel)) }
{
    text.extend_from_slice(b"channel")?;
    add_number(text, u64::from(channel))?;
    text.push(b'\n')?;
    Ok(())
}

// Adds the lines of the steps.
#[tactic(auto, using(crate::proofs::ReportWrites::log_written))]
fn write_log(alloc: Global, text: &mut Vec<u8>, log: &Log) -> Result<(), Memory>
    ensures { OnOk result (text.new.items ≡ text.old.items ++ log_text log.now.steps) }
{
    write_steps(alloc, text, report_table(), STEP, log.steps.as_slice())
}

/// The one text of a report: `act1 report 1`, the lines of its plan (`plan_text`), `channel N`, the lines of its log
/// (`log_text`) and `end`, each a line of words that are parted by one space. The format is this project's own.
pub fn report_text(alloc: Global, report: &Report) -> Result<Vec<u8>, Memory>
    ensures { IfOk result (λ text. text.items ≡ report_text report.now) }
{
    let mut text = Vec::new(alloc);
    write_header(&mut text)?;
    write_plan(alloc, &mut text, &report.plan)?;
    write_channel(&mut text, report.channel)?;
    write_log(alloc, &mut text, &report.log)?;
    write_word(&mut text, b"end")?;
    Ok(text)
}
