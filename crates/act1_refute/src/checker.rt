ghost use Rattle.std.specs.Prelude.{◌↔◌, IsTrue, OnOk};
ghost use Rattle.act1_channel.specs.Acceptance.{IsFinished};
ghost use Rattle.act1_refute.specs.Verdict.{HasNoAssignment, IsVerdict};

use crate::fault::CheckFault;
use crate::steps::is_accepted;
use act1_channel::{Log, Problem, Step, Trail};
use std::alloc::Global;

/// Whether the log is accepted; then the channel has no assignment. A step is accepted where its
/// choices are in range and rise by connection and then by track, and where with them taken its hints
/// lead to a conflict: each hint but the last names a clause of which all parts but one are false and
/// that one is undecided, which then becomes true, and the last one names a clause whose parts are
/// all false. The last step has no choices. The rules are this project's own.
///
/// Errors: `Step` with the number of the first step that isn't accepted; `Unfinished` where all are,
/// but no last one without choices stands; `Memory`.
///
/// It makes one table of all choices. Beyond that it takes time in proportion to the choices, the
/// hints and the clauses that these name, and no memory.
pub fn check(alloc: Global, problem: &Problem, log: &Log) -> Result<(), CheckFault>
    ensures verdict { IsVerdict problem.now log.now.steps result }
    ensures refutes { OnOk result (HasNoAssignment problem.now) }
{
    let mut trail = Trail::new(alloc, problem.connections.len(), problem.tracks.len())?;
    let steps = log.steps.as_slice();
    for (number, step) in steps.iter().enumerate() {
        if !is_accepted(problem, &mut trail, &steps[..number], step) {
            return Err(CheckFault::Step(number as u32));
        }
    }
    if !is_finished(steps) {
        return Err(CheckFault::Unfinished);
    }
    Ok(())
}

// Whether there is a last step, and it has no choices.
fn is_finished(steps: &[Step]) -> bool
    ensures { IsTrue result ↔ IsFinished steps.now }
{
    match steps.last() {
        Some(step) => step.choices.is_empty(),
        None => false,
    }
}
