ghost use Rattle.std.specs.Prelude.{ℕ, ◌≡◌, ◌<◌, ◌≤◌, length, count_by, is_some, IfErr, IfOk};
ghost use Rattle.act1_farm.specs.Helping.{tally_of};
ghost use Rattle.act1_farm.specs.Verdicts.{AreExact, Gives, IsCounted, Stops};

use crate::course::Course;
use crate::deciding::decide;
use crate::helping::help;
use crate::outcome::{FarmStop, Outcome, Tally};
use act1_channel::Problem;
use act1_outside::Helpers;
use act1_search::Verdict;
use std::alloc::Global;

// For how many problems a usable answer came.
#[tactic(auto, using(crate::proofs::Counts::one_more, crate::proofs::Counts::none_more, crate::proofs::Counts::all_of))]
fn count_found(found: &[Option<Verdict>]) -> u32
    requires { length found.now ≤ 65535 }
    ensures { result ≡ count_by is_some found.now }
{
    let mut count: u32 = 0;
    for at in 0..found.len() {
        if found[at].is_some() {
            count += 1;
        }
    }
    count
}

// The three numbers of an asking.
fn tally_of(course: &Course) -> Tally
    requires { length course.now.answers ≤ 65535 }
    ensures { result ≡ tally_of course.now }
{
    Tally {
        asked: u32::from(course.asked),
        taken: count_found(course.answers.as_slice()),
        faults: course.faults,
    }
}

/// The verdicts of channels, and what helpers were good for.
///
/// With `jobs` above 0, helpers are asked for each problem with connections once, in order and with that program. While
/// fewer than `jobs` of them are unfinished and a problem is left to ask for, the next is started; else the oldest one is
/// finished. An answer is usable where it is the text of an assignment that fits, or of a log that is accepted for its
/// problem. Then the channels are decided in order: one for which a usable answer came by that answer, and any other by
/// `search`. The first refuted one ends the list. A helper that fails is no error: its channel is searched. So whatever
/// helpers answer, a channel is assigned exactly where it has an assignment. The rules are this project's own.
///
/// Errors: `Spent` where the search of a channel stops so, all channels before it are assigned and no usable answer came
/// for it. `Memory`.
pub fn verdicts<H: Helpers>(
    alloc: Global,
    problems: &[Problem],
    budget: u64,
    jobs: u8,
    program: &str,
    helpers: &mut H,
) -> Result<Outcome, FarmStop>
    requires few { length problems.now ≤ 65535 }
    requires budget { 0 < budget }
    ensures ok { IfOk result (Gives program.now problems.now budget jobs (H.seen helpers.old) (H.seen helpers.new)) }
    ensures err { IfErr result (Stops program.now problems.now budget jobs (H.seen helpers.old) (H.seen helpers.new)) }
    ensures exact { IfOk result (λ outcome. AreExact problems.now outcome.answers) }
    ensures counted { IfOk result (λ outcome. IsCounted problems.now jobs outcome.tally) }
    ensures none { jobs ≡ 0 → H.seen helpers.new ≡ H.seen helpers.old }
{
    let course = help(alloc, problems, budget, jobs, program, helpers)?;
    let tally = tally_of(&course);
    let Course { answers, .. } = course;
    let answers = decide(alloc, problems, budget, answers, tally)?;
    Ok(Outcome { answers, tally })
}
