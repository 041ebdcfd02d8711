ghost use Rattle.std.specs.Prelude.{◌≡◌, ◌≤◌, length};
ghost use Rattle.act1_logtext.specs.Answers.{draft_of};
ghost use Rattle.act1_logtext.specs.AnswerSteps.{answer_rules, IsFew};
ghost use Rattle.act1_logtext.specs.Reads.{AnswerReads, IsAnswerText, ReadsAnswerAgain};

use crate::answer::Answer;
use crate::answer_step::step;
use crate::answer_table::read_answer_line;
use crate::draft::{AnswerState, Draft};
use crate::fault::LogFault;
use crate::logs::log_of;
use act1_base::{Format, Memory, Stop, TextFault, read_text};
use std::alloc::Global;

// The format of the texts of answers.
#[derive(Drop)]
struct AnswerFormat {
    alloc: Global,
}

impl Format for AnswerFormat {
    type State = AnswerState;

    type Kind = ();

    ghost rules = { λ format. answer_rules };

    ghost is_text = { λ format. IsAnswerText };

    fn start(&self) -> Result<AnswerState, Memory> {
        Ok(AnswerState::Start)
    }

    fn after(&self, state: AnswerState, line: &[u8]) -> Result<AnswerState, Stop<()>> {
        match read_answer_line(self.alloc, line)? {
            Some(line) => step(self.alloc, state, line),
            None => Err(Stop::Fault(())),
        }
    }

    fn unended(&self, _state: &AnswerState) {}

    fn end(&self, state: &AnswerState) -> Option<()> {
        match state {
            AnswerState::End(_) => None,
            _ => Some(()),
        }
    }
}

// The answer that the draft is.
fn answer_of(draft: Draft) -> Answer
    requires { IsFew draft }
    ensures { draft_of result ≡ draft }
{
    match draft {
        Draft::Assigned(tracks) => Answer::Assigned(tracks),
        Draft::Refuted(steps) => Answer::Refuted(log_of(steps)),
        Draft::Spent(conflicts) => Answer::Spent(conflicts),
    }
}

/// The answer whose text the bytes are, or the first faulty line. The format is that of `answer_text`; each step of
/// a log has at least one hint, and each number fits its field. So `Ok` comes exactly for the text of an answer, with
/// that answer. Whether its tracks fit, or its log is accepted, is another question.
pub fn read_answer(alloc: Global, bytes: &[u8]) -> Result<Answer, LogFault>
    requires { length bytes.now ≤ 4000000000 }
    ensures first { AnswerReads bytes.now result }
    ensures again { ReadsAnswerAgain bytes.now result }
{
    let format = AnswerFormat { alloc };
    match read_text(&format, bytes) {
        Ok(state) => match state {
            AnswerState::End(draft) => Ok(answer_of(draft)),
            _ => unreachable!(),
        },
        Err(Stop::Fault(TextFault { line, kind: _ })) => Err(LogFault::Line(line)),
        Err(Stop::Memory) => Err(LogFault::Memory),
    }
}
