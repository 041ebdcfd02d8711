ghost use Rattle.std.specs.Prelude.{◌≡◌, ◌↔◌, [], ◌∷◌, ◌++◌, IsTrue, map};
ghost use Rattle.act1_channel.specs.Acceptance.{choices_of, IsAcceptedStep, IsBefore, IsInRange, LeadToConflict};
ghost use Rattle.act1_channel.specs.Clauses.{taken, IsUnit};
ghost use Rattle.act1_channel.specs.Found.{facts_of, IsFor};
ghost use Rattle.act1_refute.specs.HintSteps.{part_at, AreInOrder, StepsAreInOrder};

use crate::hints::{status_of, truth_of};
use crate::status::Status;
use act1_channel::{Choice, Entry, Hint, Problem, Step, Trail};

// Whether the step is accepted after these steps. The trail is empty before and after, and what is
// done with it is in proportion to what the step sets.
pub(crate) fn is_accepted(
    problem: &Problem,
    trail: &mut Trail,
    earlier: &[Step],
    step: &Step,
) -> bool
    requires size { IsFor problem.now trail.old }
    requires empty { trail.old.entries ≡ [] }
    requires steps { StepsAreInOrder problem.now earlier.now }
    ensures trail { trail.new ≡ trail.old }
    ensures answer { IsTrue result ↔ IsAcceptedStep problem.now (choices_of earlier.now) step.now }
{
    if !are_in_order(problem, step.choices.as_slice()) {
        return false;
    }
    assume(problem, trail, step.choices.as_slice());
    let accepted = lead_to_conflict(problem, trail, earlier, step.hints.as_slice());
    trail.clear();
    accepted
}

// Whether the choices are there and rise.
fn are_in_order(problem: &Problem, choices: &[Choice]) -> bool
    ensures { IsTrue result ↔ AreInOrder problem.now choices.now }
{
    for choice in choices {
        if !is_in_range(problem, *choice) {
            return false;
        }
    }
    for i in 1..choices.len() {
        if !is_before(choices[i - 1], choices[i]) {
            return false;
        }
    }
    true
}

// Whether connection and track are there.
fn is_in_range(problem: &Problem, choice: Choice) -> bool
    ensures { IsTrue result ↔ IsInRange problem.now choice }
{
    usize::from(choice.connection) < problem.connections.len()
        && usize::from(choice.track) < problem.tracks.len()
}

// Whether one choice stands before the other, by connection and then by track.
fn is_before(one: Choice, other: Choice) -> bool
    ensures { IsTrue result ↔ IsBefore one other }
{
    if one.connection == other.connection {
        return one.track < other.track;
    }
    one.connection < other.connection
}

// Takes the choices.
fn assume(problem: &Problem, trail: &mut Trail, choices: &[Choice])
    requires size { IsFor problem.now trail.old }
    requires empty { trail.old.entries ≡ [] }
    requires choices { AreInOrder problem.now choices.now }
    ensures size { IsFor problem.now trail.new }
    ensures facts { facts_of trail.new.entries ≡ map taken choices.now }
{
    for choice in choices {
        trail.put(Entry {
            choice: *choice,
            truth: true,
            why: None,
        });
    }
}

// Whether the hints lead to a conflict. What they make true is added to the facts.
fn lead_to_conflict(problem: &Problem, trail: &mut Trail, earlier: &[Step], hints: &[Hint]) -> bool
    requires size { IsFor problem.now trail.old }
    requires steps { StepsAreInOrder problem.now earlier.now }
    ensures size { IsFor problem.now trail.new }
    ensures answer { IsTrue result ↔ LeadToConflict problem.now (choices_of earlier.now) (facts_of trail.old.entries) hints.now }
{
    for (i, hint) in hints.iter().enumerate() {
        match status_of(problem, trail, earlier, *hint) {
            Status::Contradicted => return i + 1 == hints.len(),
            Status::Unit(choice) => add(problem, trail, earlier, *hint, choice),
            Status::Open => return false,
        }
    }
    false
}

// Makes the one part of a clause true that can be.
fn add(problem: &Problem, trail: &mut Trail, earlier: &[Step], hint: Hint, choice: Choice)
    requires size { IsFor problem.now trail.old }
    requires steps { StepsAreInOrder problem.now earlier.now }
    requires unit { IsUnit problem.now (choices_of earlier.now) (facts_of trail.old.entries) hint (part_at hint choice) }
    ensures size { IsFor problem.now trail.new }
    ensures facts { facts_of trail.new.entries ≡ facts_of trail.old.entries ++ part_at hint choice ∷ [] }
{
    trail.put(Entry {
        choice,
        truth: truth_of(hint),
        why: Some(hint),
    });
}
