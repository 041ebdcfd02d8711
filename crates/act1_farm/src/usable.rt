ghost use Rattle.std.specs.Prelude.{ℕ, ◌≡◌, ◌≤◌, ◌↔◌, IsTrue, MatchOption, IfOk, length};
ghost use Rattle.act1_channel.specs.Acceptance.{IsAccepted};
ghost use Rattle.act1_farm.specs.Usable.{Brings, IsUsable};
ghost use Rattle.act1_farm.specs.UsableSteps.{IsTaken};

use act1_base::Memory;
use act1_channel::{Log, Problem};
use act1_logtext::{Answer, LogFault, read_answer};
use act1_refute::{CheckFault, check};
use act1_search::Verdict;
use std::alloc::Global;

// Whether the log is accepted for the problem.
fn is_accepted(alloc: Global, problem: &Problem, log: &Log) -> Result<bool, Memory>
    ensures { IfOk result (λ yes. IsTrue yes ↔ IsAccepted problem.now log.now.steps) }
{
    match check(alloc, problem, log) {
        Ok(()) => Ok(true),
        Err(CheckFault::Step(_)) => Ok(false),
        Err(CheckFault::Unfinished) => Ok(false),
        Err(CheckFault::Memory) => Err(Memory),
    }
}

// The verdict that an answer is, where it decides the problem.
fn decided(alloc: Global, problem: &Problem, answer: Answer) -> Result<Option<Verdict>, Memory>
    ensures { IfOk result (IsTaken problem.now answer) }
{
    match answer {
        Answer::Assigned(tracks) => {
            if problem.fits(tracks.as_slice()) {
                Ok(Some(Verdict::Assigned(tracks)))
            } else {
                Ok(None)
            }
        }
        Answer::Refuted(log) => {
            if is_accepted(alloc, problem, &log)? {
                Ok(Some(Verdict::Refuted(log)))
            } else {
                Ok(None)
            }
        }
        Answer::Spent(_) => Ok(None),
    }
}

/// The verdict of an answer, where it is usable: the text of an assignment that fits, or of a log that is accepted.
/// The one error is `Memory`.
pub fn verdict_of(alloc: Global, problem: &Problem, bytes: &[u8]) -> Result<Option<Verdict>, Memory>
    requires { length bytes.now ≤ 268435456 }
    ensures { IfOk result (λ v. MatchOption v (IsUsable problem.now bytes.now → ⊥) (Brings problem.now bytes.now)) }
{
    match read_answer(alloc, bytes) {
        Ok(answer) => decided(alloc, problem, answer),
        Err(LogFault::Line(_)) => Ok(None),
        Err(LogFault::Memory) => Err(Memory),
    }
}
