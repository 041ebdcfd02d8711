ghost use Rattle.std.specs.Prelude.{ℕ, ◌≡◌, ◌<◌, ◌↔◌, IsTrue, IsFalse, length, MatchOption, IfOk};
ghost use Rattle.act1_channel.specs.Assignment.{IsAllowed, choice_at};
ghost use Rattle.act1_channel.specs.Clauses.{taken};
ghost use Rattle.act1_search.specs.Closure.{Follows, IsInConflict, HasTrueChoice, HasFactAbout};
ghost use Rattle.act1_search.specs.Search.{IsDecision, IsFirstOpen};
ghost use Rattle.act1_search.specs.Watching.{IsVisited};
ghost use Rattle.act1_search.specs.Deciding.{IsCalm, IsFirstTrue, AreFirstTrue};

use crate::propagate::{connection_count, track_count};
use crate::watch::Watch;
use act1_base::{Items, Memory};
use act1_channel::{Choice, Problem};
use std::alloc::Global;

// The least track of a connection that is taken.
fn first_true(problem: &Problem, watch: &Watch<'_>, connection: u16) -> Option<u8>
    requires same { watch.now.problem ≡ problem.now }
    requires calm { IsCalm problem.now watch.now.steps watch.now.chosen }
    requires connection { connection < length problem.now.connections }
    ensures { MatchOption result (HasTrueChoice problem.now watch.now.steps watch.now.chosen connection → ⊥) (IsFirstTrue problem.now watch.now.steps watch.now.chosen connection) }
{
    for track in 0..track_count(problem) {
        if is_taken(problem, watch, connection, track) {
            return Some(track);
        }
    }
    None
}

// Whether a choice is true.
fn is_taken(problem: &Problem, watch: &Watch<'_>, connection: u16, track: u8) -> bool
    requires same { watch.now.problem ≡ problem.now }
    requires calm { IsCalm problem.now watch.now.steps watch.now.chosen }
    requires connection { connection < length problem.now.connections }
    requires track { track < length problem.now.tracks }
    ensures { IsTrue result ↔ Follows problem.now watch.now.steps watch.now.chosen (taken (choice_at connection track)) }
{
    match watch.fact(Choice { connection, track }) {
        Some(truth) => truth,
        None => false,
    }
}

// Whether a connection may take a track, and there is no fact about it.
fn is_free(problem: &Problem, watch: &Watch<'_>, connection: u16, track: u8) -> bool
    requires same { watch.now.problem ≡ problem.now }
    requires calm { IsCalm problem.now watch.now.steps watch.now.chosen }
    requires connection { connection < length problem.now.connections }
    requires track { track < length problem.now.tracks }
    ensures free { IsTrue result → IsAllowed problem.now (choice_at connection track) × (HasFactAbout problem.now watch.now.steps watch.now.chosen (choice_at connection track) → ⊥) }
    ensures known { IsFalse result → IsAllowed problem.now (choice_at connection track) → HasFactAbout problem.now watch.now.steps watch.now.chosen (choice_at connection track) }
{
    if !problem.allowed(connection, track) {
        return false;
    }
    match watch.fact(Choice { connection, track }) {
        Some(_) => false,
        None => true,
    }
}

// The least track that a connection may take and about which there is no fact.
fn first_open(problem: &Problem, watch: &Watch<'_>, connection: u16) -> Option<u8>
    requires same { watch.now.problem ≡ problem.now }
    requires calm { IsCalm problem.now watch.now.steps watch.now.chosen }
    requires connection { connection < length problem.now.connections }
    ensures { MatchOption result ((t : ℕ) → IsAllowed problem.now (choice_at connection t) → HasFactAbout problem.now watch.now.steps watch.now.chosen (choice_at connection t)) (IsFirstOpen problem.now watch.now.steps watch.now.chosen connection) }
{
    for track in 0..track_count(problem) {
        if is_free(problem, watch, connection, track) {
            return Some(track);
        }
    }
    None
}

// The decision, or None where each connection has a true choice.
fn decision(problem: &Problem, watch: &Watch<'_>) -> Option<Choice>
    requires same { watch.now.problem ≡ problem.now }
    requires calm { IsCalm problem.now watch.now.steps watch.now.chosen }
    ensures { MatchOption result ((c : ℕ) → c < length problem.now.connections → HasTrueChoice problem.now watch.now.steps watch.now.chosen c) (IsDecision problem.now watch.now.steps watch.now.chosen) }
{
    for connection in 0..connection_count(problem) {
        if first_true(problem, watch, connection).is_none() {
            match first_open(problem, watch, connection) {
                Some(track) => return Some(Choice { connection, track }),
                None => unreachable!(),
            }
        }
    }
    None
}

/// Decides until there is a conflict or each connection has a true choice.
pub fn descend(problem: &Problem, watch: &mut Watch<'_>)
    requires same { watch.old.problem ≡ problem.now }
    requires visited { IsVisited problem.now watch.old.steps watch.old.chosen }
    ensures same { watch.new.problem ≡ problem.now }
    ensures steps { watch.new.steps ≡ watch.old.steps }
    ensures visited { IsVisited problem.now watch.new.steps watch.new.chosen }
    ensures settled { (IsInConflict problem.now watch.new.steps watch.new.chosen → ⊥) → (c : ℕ) → c < length problem.now.connections → HasTrueChoice problem.now watch.new.steps watch.new.chosen c }
{
    while !watch.conflict() {
        match decision(problem, watch) {
            Some(choice) => watch.assume(choice),
            None => return,
        }
    }
}

/// The least tracks of true choices. The one error is `Memory`.
pub fn tracks_of(alloc: Global, problem: &Problem, watch: &Watch<'_>) -> Result<Items<u16>, Memory>
    requires same { watch.now.problem ≡ problem.now }
    requires calm { IsCalm problem.now watch.now.steps watch.now.chosen }
    requires settled { (c : ℕ) → c < length problem.now.connections → HasTrueChoice problem.now watch.now.steps watch.now.chosen c }
    ensures { IfOk result (λ tracks. (length tracks ≡ length problem.now.connections) × AreFirstTrue problem.now watch.now.steps watch.now.chosen tracks) }
{
    let mut tracks = Items::new(alloc);
    for connection in 0..connection_count(problem) {
        match first_true(problem, watch, connection) {
            Some(track) => tracks.push(u16::from(track))?,
            None => unreachable!(),
        }
    }
    Ok(tracks)
}
