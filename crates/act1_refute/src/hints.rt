ghost use Rattle.std.specs.Prelude.{◌≡◌, ◌↔◌, ◌<◌, ◌+◌, [], IsTrue, false, true, length, Contains};
ghost use Rattle.act1_channel.specs.Acceptance.{choices_of, IsInRange};
ghost use Rattle.act1_channel.specs.Assignment.{choice_at};
ghost use Rattle.act1_channel.specs.Clauses.{IsClause};
ghost use Rattle.act1_channel.specs.Found.{facts_of, IsFor, Tell};
ghost use Rattle.act1_channel.specs.declared.problem.Hint.TheVariants.{Clash};
ghost use Rattle.act1_refute.specs.HintSteps.{truth_of, IsEither, IsOwn, IsStatusOf, StepsAreInOrder, AreInOrder};
ghost use Rattle.act1_refute.specs.StatusSteps.{IsAllowedBelow, IsStatus};

use crate::status::{Status, with_part};
use act1_channel::{Choice, Hint, Problem, Step, Trail};

// Whether the parts of the clause say that choices are taken.
pub(crate) fn truth_of(hint: Hint) -> bool
    ensures { result ≡ truth_of hint }
{
    matches!(hint, Hint::AtLeast(_))
}

// What the facts leave of the clause that a hint names, after these steps.
pub(crate) fn status_of(problem: &Problem, trail: &Trail, earlier: &[Step], hint: Hint) -> Status
    requires size { IsFor problem.now trail.now }
    requires steps { StepsAreInOrder problem.now earlier.now }
    ensures { IsStatusOf problem.now (choices_of earlier.now) (facts_of trail.now.entries) hint result }
{
    match hint {
        Hint::AtLeast(connection) => status_of_connection(problem, trail, connection),
        Hint::Clash {
            first,
            second,
            track,
        } => status_of_clash(problem, trail, first, second, track),
        Hint::Step(number) => match earlier.get(number as usize) {
            Some(step) => status_of_step(problem, trail, step.choices.as_slice()),
            None => Status::Open,
        },
    }
}

// .. that the connection takes one of its allowed tracks.
#[tactic(auto, using(act1_channel::proofs::Breaks::sizes))]
fn status_of_connection(problem: &Problem, trail: &Trail, connection: u16) -> Status
    requires size { IsFor problem.now trail.now }
    ensures { IsStatus (facts_of trail.now.entries) (connection < length problem.now.connections) true (IsOwn problem.now connection) result }
{
    if usize::from(connection) >= problem.connections.len() {
        return Status::Open;
    }
    let mut status = Status::Contradicted;
    for track in 0..problem.tracks.len() as u8 {
        status = with_track(problem, trail, connection, track, status);
    }
    status
}

// .. with one track more. Whether a track is allowed is asked only where it isn't refused.
fn with_track(
    problem: &Problem,
    trail: &Trail,
    connection: u16,
    track: u8,
    status: Status,
) -> Status
    requires size { IsFor problem.now trail.now }
    requires connection { connection < length problem.now.connections }
    requires track { track < length problem.now.tracks }
    requires status { IsStatus (facts_of trail.now.entries) (connection < length problem.now.connections) true (IsAllowedBelow problem.now connection track) status }
    ensures { IsStatus (facts_of trail.now.entries) (connection < length problem.now.connections) true (IsAllowedBelow problem.now connection (track + 1)) result }
{
    let choice = Choice { connection, track };
    let known = known(problem, trail, choice);
    if known == Some(false) {
        return status;
    }
    if !problem.allowed(connection, track) {
        return status;
    }
    with_part(status, choice, true, known)
}

// .. that two connections that clash don't both take the track.
fn status_of_clash(problem: &Problem, trail: &Trail, first: u16, second: u16, track: u8) -> Status
    requires size { IsFor problem.now trail.now }
    ensures { IsStatus (facts_of trail.now.entries) (IsClause problem.now [] (Clash first second track)) false (IsEither first second track) result }
{
    if !is_clash(problem, first, second, track) {
        return Status::Open;
    }
    let one = Choice {
        connection: first,
        track,
    };
    let other = Choice {
        connection: second,
        track,
    };
    let status = with_part(Status::Contradicted, one, false, known(problem, trail, one));
    with_part(status, other, false, known(problem, trail, other))
}

// Whether there is such a clash.
fn is_clash(problem: &Problem, first: u16, second: u16, track: u8) -> bool
    ensures { IsTrue result ↔ IsClause problem.now [] (Clash first second track) }
{
    if first >= second {
        return false;
    }
    if usize::from(second) >= problem.connections.len() {
        return false;
    }
    if usize::from(track) >= problem.tracks.len() {
        return false;
    }
    problem.clash(first, second, track)
}

// .. that not all of these choices are taken.
fn status_of_step(problem: &Problem, trail: &Trail, choices: &[Choice]) -> Status
    requires size { IsFor problem.now trail.now }
    requires choices { AreInOrder problem.now choices.now }
    ensures { IsStatus (facts_of trail.now.entries) Unit false (Contains choices.now) result }
{
    let mut status = Status::Contradicted;
    for choice in choices {
        status = with_part(status, *choice, false, known(problem, trail, *choice));
    }
    status
}

// What the facts tell of a choice.
fn known(problem: &Problem, trail: &Trail, choice: Choice) -> Option<bool>
    requires size { IsFor problem.now trail.now }
    requires choice { IsInRange problem.now choice }
    ensures { Tell (facts_of trail.now.entries) choice result }
{
    trail.fact(choice)
}
