ghost use Rattle.std.specs.Prelude.{◌≡◌, ◌<◌, [], IfOk};
ghost use Rattle.act1_search.specs.Answers.{IsAnswer};
ghost use Rattle.act1_search.specs.Closure.{IsInConflict};
ghost use Rattle.act1_search.specs.Explaining.{IsLogOf};

use crate::descent::{descend, tracks_of};
use crate::verdict::{SearchStop, Verdict};
use crate::watch::Watch;
use act1_base::{Items, Memory};
use act1_channel::{Log, Problem};
use std::alloc::Global;

// The log of a watch without choices that is in conflict.
fn refutation(watch: Watch<'_>) -> Result<Log, Memory>
    requires conflict { IsInConflict watch.problem watch.steps watch.chosen }
    requires none { watch.chosen ≡ [] }
    ensures { IfOk result (λ log. IsLogOf watch.entry.problem watch.entry.steps log.steps) }
{
    let steps = watch.into_log()?;
    Ok(Log {
        steps: Items::from_vec(steps),
    })
}

/// The ordered clause search: an assignment of the channel, or a refutation of it.
///
/// All clauses are propagated before each decision. The decision is the first connection without a true
/// choice, on its first allowed track about which there is no fact. At a conflict the choices that stand
/// become a step, and the last of them is taken back; the step without choices ends the search. When each
/// connection has a true choice, the least such tracks are the assignment. The order is this project's own.
///
/// Errors: `Spent` with the budget, exactly where the conflict of that number has choices; then the budget
/// is below `(1 + T)^n` for T tracks and n connections. `Memory`.
pub fn search(alloc: Global, problem: &Problem, budget: u64) -> Result<Verdict, SearchStop>
    requires { 0 < budget }
    ensures { IsAnswer problem.now budget result }
{
    let mut watch = Watch::new(alloc, problem)?;
    for _count in 0..budget {
        descend(problem, &mut watch);
        if !watch.conflict() {
            let tracks = tracks_of(alloc, problem, &watch)?;
            return Ok(Verdict::Assigned(tracks));
        }
        if watch.depth() == 0 {
            return Ok(Verdict::Refuted(refutation(watch)?));
        }
        watch.learn()?;
    }
    Err(SearchStop::Spent { conflicts: budget })
}
