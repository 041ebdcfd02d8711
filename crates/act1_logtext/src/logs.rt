ghost use Rattle.std.specs.Prelude.{◌≡◌, ◌<◌, ◌≤◌, ◌^◌, length, IfOk};
ghost use Rattle.act1_base.specs.Texts.{Gives};
ghost use Rattle.act1_logtext.specs.Logs as logs;
ghost use Rattle.act1_logtext.specs.Logs.{log_format, log_rules, log_table, log_text};
ghost use Rattle.act1_logtext.specs.Reads.{IsLogText, LogReads, ReadsLogAgain};
ghost use Rattle.act1_table.specs.Formats.{read_own};
ghost use Rattle.act1_table.specs.Table.{table_of};

use crate::fault::LogFault;
use crate::step_read::read_step_line;
use crate::steps::{STEP_FORM, write_steps};
use act1_base::{Format, Items, Memory, Stop, TextFault, read_text};
use act1_channel::{Log, Step};
use act1_table::Form;
use std::alloc::Global;

const LOG_LINES: &[Form] = &[STEP_FORM];

// The forms of the lines.
fn log_table() -> &'static [Form]
    ensures { table_of result.now ≡ log_table }
{
    LOG_LINES
}

// The step that the bytes of a line say, if they say one.
#[tactic(auto, using(crate::proofs::StepForms::log_line_read))]
fn read_log_line(alloc: Global, bytes: &[u8]) -> Result<Option<Step>, Memory>
    ensures { IfOk result (λ step. step ≡ read_own log_format bytes.now) }
{
    let step = read_step_line(alloc, bytes)?;
    Ok(step)
}

/// The steps of a log and one more. It is a fault of its line where it has no hint, or where there would be 2^32
/// steps, which no log has.
pub fn add_step(mut steps: Items<Step>, step: Step) -> Result<Items<Step>, Stop<()>>
    ensures { Gives result (logs.add_step steps step) }
{
    if step.hints.is_empty() {
        return Err(Stop::Fault(()));
    }
    if steps.len() >= u32::MAX as usize {
        return Err(Stop::Fault(()));
    }
    steps.push(step)?;
    Ok(steps)
}

// The format of the texts of logs.
#[derive(Drop)]
struct LogFormat {
    alloc: Global,
}

impl Format for LogFormat {
    type State = Items<Step>;

    type Kind = ();

    ghost rules = { λ format. log_rules };

    ghost is_text = { λ format. IsLogText };

    fn start(&self) -> Result<Items<Step>, Memory> {
        Ok(Items::new(self.alloc))
    }

    fn after(&self, steps: Items<Step>, line: &[u8]) -> Result<Items<Step>, Stop<()>> {
        match read_log_line(self.alloc, line)? {
            Some(step) => add_step(steps, step),
            None => Err(Stop::Fault(())),
        }
    }

    fn unended(&self, _steps: &Items<Step>) {}

    fn end(&self, _steps: &Items<Step>) -> Option<()> {
        None
    }
}

/// The log of these steps.
pub(crate) fn log_of(steps: Items<Step>) -> Log
    requires { length steps < 2 ^ 32 }
    ensures { result.steps ≡ steps }
{
    Log { steps }
}

/// The log whose text the bytes are, or the first faulty line. The format is that of `log_text`; each step has at
/// least one hint, and each number fits its field; the empty text is that of the log without steps. So `Ok` comes
/// exactly for the text of a log, with that log. Whether the log is accepted is another question.
pub fn read_log(alloc: Global, bytes: &[u8]) -> Result<Log, LogFault>
    requires { length bytes.now ≤ 4000000000 }
    ensures first { LogReads bytes.now result }
    ensures again { ReadsLogAgain bytes.now result }
{
    let format = LogFormat { alloc };
    match read_text(&format, bytes) {
        Ok(steps) => Ok(log_of(steps)),
        Err(Stop::Fault(TextFault { line, kind: _ })) => Err(LogFault::Line(line)),
        Err(Stop::Memory) => Err(LogFault::Memory),
    }
}

/// The one text of a log: for each step a line of `step`, the choices, `:` and the hints, which are parted by one
/// space. A choice of connection C and track T is `C@T`. The hint that a connection takes a track is `aC`, a clash
/// is `xC,D@T`, and an earlier step is `sN`. Numbers are spelled by decimal digits without a leading zero.
pub fn log_text(alloc: Global, log: &Log) -> Result<Vec<u8>, Memory>
    ensures { IfOk result (λ text. text.items ≡ log_text log.now.steps) }
{
    let mut text = Vec::new(alloc);
    write_steps(alloc, &mut text, log_table(), 0, log.steps.as_slice())?;
    Ok(text)
}
