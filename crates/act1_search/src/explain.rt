ghost use Rattle.std.specs.Prelude.{ℕ, ◌≡◌, ◌<◌, ◌*◌, List, [], ◌∷◌, ◌++◌, All, Contains, IfOk, OnOk, length, map, true};
ghost use Rattle.act1_channel.specs.declared.problem.Choice.{Choice};
ghost use Rattle.act1_channel.specs.Acceptance.{LeadToConflict, IsInRange, choices_of};
ghost use Rattle.act1_channel.specs.Assignment.{choice_at};
ghost use Rattle.act1_channel.specs.Clauses.{taken, IsClause};
ghost use Rattle.act1_channel.specs.Found.{place, IsFor};
ghost use Rattle.act1_search.specs.Explaining.{is_wanted, AddsReason, AreReasons, AreStepsAllowed, KeepsMarks, MarksParts};
ghost use Rattle.act1_search.specs.Propagation.{AreInside, IsContradicted};
ghost use Rattle.act1_search.specs.Trail.{IsTrail};

use crate::propagate::track_count;
use act1_base::{Items, Memory};
use act1_channel::{Choice, Entry, Hint, Problem, Step, Trail};
use std::alloc::Global;

// The place of a choice in a table of marks.
#[tactic(auto, using(crate::proofs::Marks::place_low))]
fn place(problem: &Problem, choice: Choice) -> usize
    requires { IsInRange problem.now choice }
    ensures place { result ≡ place (length problem.now.tracks) choice }
    ensures low { result < length problem.now.connections * length problem.now.tracks }
{
    usize::from(choice.connection) * problem.tracks.len() + usize::from(choice.track)
}

// Whether a choice has a mark.
fn is_wanted(problem: &Problem, wanted: &[bool], choice: Choice) -> bool
    requires there { IsInRange problem.now choice }
    requires room { length wanted.now ≡ length problem.now.connections * length problem.now.tracks }
    ensures { result ≡ is_wanted problem.now wanted.now choice }
{
    wanted[place(problem, choice)]
}

// A choice gets a mark.
fn want(problem: &Problem, wanted: &mut [bool], choice: Choice)
    requires there { IsInRange problem.now choice }
    requires room { length wanted.old ≡ length problem.now.connections * length problem.now.tracks }
    ensures keeps { KeepsMarks problem.now wanted.old wanted.new }
    ensures own { is_wanted problem.now wanted.new choice ≡ true }
{
    wanted[place(problem, choice)] = true;
}

// All choices of a connection get a mark.
fn want_connection(problem: &Problem, wanted: &mut [bool], connection: u16)
    requires there { connection < length problem.now.connections }
    requires room { length wanted.old ≡ length problem.now.connections * length problem.now.tracks }
    ensures keeps { KeepsMarks problem.now wanted.old wanted.new }
    ensures all { (t : ℕ) → t < length problem.now.tracks → is_wanted problem.now wanted.new (choice_at connection t) ≡ true }
{
    for track in 0..track_count(problem) {
        want(problem, wanted, Choice { connection, track });
    }
}

// Some choices get a mark.
fn want_all(problem: &Problem, wanted: &mut [bool], choices: &[Choice])
    requires there { All (IsInRange problem.now) choices.now }
    requires room { length wanted.old ≡ length problem.now.connections * length problem.now.tracks }
    ensures keeps { KeepsMarks problem.now wanted.old wanted.new }
    ensures all { (c : Choice) → Contains choices.now c → is_wanted problem.now wanted.new c ≡ true }
{
    for choice in choices {
        want(problem, wanted, *choice);
    }
}

// The choices that a clause speaks of get a mark.
fn want_parts(problem: &Problem, steps: &[Step], wanted: &mut [bool], hint: Hint)
    requires clause { IsClause problem.now (choices_of steps.now) hint }
    requires steps { AreStepsAllowed problem.now (choices_of steps.now) }
    requires room { length wanted.old ≡ length problem.now.connections * length problem.now.tracks }
    ensures { MarksParts problem.now (choices_of steps.now) hint wanted.old wanted.new }
{
    match hint {
        Hint::AtLeast(connection) => want_connection(problem, wanted, connection),
        Hint::Clash {
            first,
            second,
            track,
        } => want_both(problem, wanted, first, second, track),
        Hint::Step(number) => {
            want_all(problem, wanted, steps[number as usize].choices.as_slice());
        }
    }
}

// Two choices of a track get a mark.
fn want_both(problem: &Problem, wanted: &mut [bool], first: u16, second: u16, track: u8)
    requires first { first < length problem.now.connections }
    requires second { second < length problem.now.connections }
    requires track { track < length problem.now.tracks }
    requires room { length wanted.old ≡ length problem.now.connections * length problem.now.tracks }
    ensures keeps { KeepsMarks problem.now wanted.old wanted.new }
    ensures one { is_wanted problem.now wanted.new (choice_at first track) ≡ true }
    ensures other { is_wanted problem.now wanted.new (choice_at second track) ≡ true }
{
    want(
        problem,
        wanted,
        Choice {
            connection: first,
            track,
        },
    );
    want(
        problem,
        wanted,
        Choice {
            connection: second,
            track,
        },
    );
}

// Adds the reason of a fact that has a mark, and marks what the reason speaks of.
fn add_reason(
    problem: &Problem,
    steps: &[Step],
    wanted: &mut [bool],
    hints: &mut Vec<Hint>,
    entry: Entry,
) -> Result<(), Memory>
    requires there { IsInRange problem.now entry.choice }
    requires reason { (h : Hint) → entry.why ≡ Some h → IsClause problem.now (choices_of steps.now) h }
    requires steps { AreStepsAllowed problem.now (choices_of steps.now) }
    requires room { length wanted.old ≡ length problem.now.connections * length problem.now.tracks }
    ensures room { length wanted.new ≡ length wanted.old }
    ensures adds { OnOk result (AddsReason problem.now (choices_of steps.now) entry wanted.old wanted.new hints.old.items hints.new.items) }
{
    if !is_wanted(problem, wanted, entry.choice) {
        return Ok(());
    }
    match entry.why {
        None => Ok(()),
        Some(hint) => {
            hints.push(hint)?;
            want_parts(problem, steps, wanted, hint);
            Ok(())
        }
    }
}

// The marks of all choices of which there is a fact are taken away.
fn forget(problem: &Problem, wanted: &mut [bool], trail: &Trail)
    requires inside { AreInside problem.now trail.now.entries }
    requires room { length wanted.old ≡ length problem.now.connections * length problem.now.tracks }
    ensures { length wanted.new ≡ length wanted.old }
{
    for number in 0..trail.len() {
        wanted[place(problem, trail.entry(number).choice)] = false;
    }
}

/// The hints that show the step of the choices that were assumed: from the last fact back to the first,
/// the reasons of the facts that the hints so far speak of, and at the end the clause whose parts are all
/// false. `wanted` is a table for marks of choices, which it leaves without marks of the facts. The one
/// error is `Memory`.
pub fn explain(
    alloc: Global,
    problem: &Problem,
    steps: &[Step],
    trail: &Trail,
    wanted: &mut [bool],
    broken: Hint,
) -> Result<Items<Hint>, Memory>
    requires steps { AreStepsAllowed problem.now (choices_of steps.now) }
    requires reasons { AreReasons problem.now (choices_of steps.now) trail.now.entries }
    requires inside { AreInside problem.now trail.now.entries }
    requires broken { IsContradicted problem.now trail.now.entries broken }
    requires room { length wanted.old ≡ length problem.now.connections * length problem.now.tracks }
    ensures room { length wanted.new ≡ length wanted.old }
    ensures shown { (chosen : List Choice) → IsTrail problem.now (choices_of steps.now) chosen trail.now.entries → IfOk result (λ hints. LeadToConflict problem.now (choices_of steps.now) (map taken chosen) hints) }
{
    let mut hints = Vec::new(alloc);
    hints.push(broken)?;
    want_parts(problem, steps, wanted, broken);
    let mut at = trail.len();
    while at > 0 {
        at -= 1;
        add_reason(problem, steps, wanted, &mut hints, trail.entry(at))?;
    }
    forget(problem, wanted, trail);
    hints.as_mut_slice().reverse();
    Ok(Items::from_vec(hints))
}
