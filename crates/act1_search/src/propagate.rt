ghost use Rattle.std.specs.Prelude.{ℕ, ◌≡◌, ◌≢◌, ◌<◌, ◌≤◌, ◌+◌, ◌++◌, ◌∷◌, [], Some, None, true, false, length, MatchOption, IsTrue, IsFalse};
ghost use Rattle.act1_channel.specs.Assignment.{IsAllowed, choice_at};
ghost use Rattle.act1_channel.specs.Found.{truth_in, IsFor};
ghost use Rattle.act1_search.specs.declared.propagate.Left.TheVariants.{One};
ghost use Rattle.act1_search.specs.Propagation.{AreInside, IsForced, Grows, IsContradicted, IsKeptOff, AreKeptOff, IsServed, IsLeft, IsPending, IsSettled, clash_name};

use act1_channel::{Choice, Entry, Hint, Problem, Trail};

/// What is left of a connection's tracks: none, one, or several.
#[derive(Clone, Copy, Debug, PartialEq, Eq)]
pub enum Left {
    /// No track.
    Nothing,
    /// This track alone.
    One(u8),
    /// Two tracks or more.
    Several,
}

// How many connections there are.
pub fn connection_count(problem: &Problem) -> u16
    ensures { result ≡ length problem.now.connections }
{
    problem.connections.len() as u16
}

// How many tracks there are.
pub fn track_count(problem: &Problem) -> u8
    ensures { result ≡ length problem.now.tracks }
{
    problem.tracks.len() as u8
}

// The fact about a choice of the problem.
fn known(problem: &Problem, trail: &Trail, connection: u16, track: u8) -> Option<bool>
    requires size { IsFor problem.now trail.now }
    requires connection { connection < length problem.now.connections }
    requires track { track < length problem.now.tracks }
    ensures { result ≡ truth_in trail.now.entries (choice_at connection track) }
{
    trail.fact(Choice { connection, track })
}

// Adds a fact that a clause of the problem gives.
#[tactic(auto, using(crate::proofs::Growing::grows_one))]
fn force(problem: &Problem, trail: &mut Trail, entry: Entry)
    requires size { IsFor problem.now trail.old }
    requires forced { IsForced problem.now trail.old.entries entry }
    ensures size { IsFor problem.now trail.new }
    ensures entries { trail.new.entries ≡ trail.old.entries ++ entry ∷ [] }
    ensures grows { Grows problem.now trail.old.entries trail.new.entries }
{
    trail.put(entry);
}

// Whether a connection may take a track, and it isn't refused.
fn is_open(problem: &Problem, trail: &Trail, connection: u16, track: u8) -> bool
    requires size { IsFor problem.now trail.now }
    requires connection { connection < length problem.now.connections }
    requires track { track < length problem.now.tracks }
    ensures is_open { IsTrue result → IsAllowed problem.now (choice_at connection track) × (truth_in trail.now.entries (choice_at connection track) ≢ Some false) }
    ensures closed { IsFalse result → IsAllowed problem.now (choice_at connection track) → truth_in trail.now.entries (choice_at connection track) ≡ Some false }
{
    if !problem.allowed(connection, track) {
        return false;
    }
    match known(problem, trail, connection, track) {
        Some(truth) => truth,
        None => true,
    }
}

// What is left with one track more.
fn left_with(problem: &Problem, trail: &Trail, connection: u16, track: u8, left: Left) -> Left
    requires size { IsFor problem.now trail.now }
    requires connection { connection < length problem.now.connections }
    requires track { track < length problem.now.tracks }
    requires left { IsLeft problem.now trail.now.entries connection track left }
    ensures { IsLeft problem.now trail.now.entries connection (track + 1) result }
{
    if !is_open(problem, trail, connection, track) {
        return left;
    }
    match left {
        Left::Nothing => Left::One(track),
        Left::One(_) => Left::Several,
        Left::Several => Left::Several,
    }
}

// What is left of a connection's tracks.
fn left_of(problem: &Problem, trail: &Trail, connection: u16) -> Left
    requires size { IsFor problem.now trail.now }
    requires connection { connection < length problem.now.connections }
    ensures { IsLeft problem.now trail.now.entries connection (length problem.now.tracks) result }
{
    let mut left = Left::Nothing;
    for track in 0..track_count(problem) {
        left = left_with(problem, trail, connection, track, left);
    }
    left
}

// Gives a connection the one track that is left to it.
#[tactic(auto, using(crate::proofs::Growing::grows_none))]
fn serve(problem: &Problem, trail: &mut Trail, connection: u16, track: u8)
    requires size { IsFor problem.now trail.old }
    requires connection { connection < length problem.now.connections }
    requires left { IsLeft problem.now trail.old.entries connection (length problem.now.tracks) (One track) }
    ensures size { IsFor problem.now trail.new }
    ensures grows { Grows problem.now trail.old.entries trail.new.entries }
    ensures served { IsServed problem.now trail.new.entries connection }
{
    if known(problem, trail, connection, track).is_some() {
        return;
    }
    force(
        problem,
        trail,
        Entry {
            choice: Choice { connection, track },
            truth: true,
            why: Some(Hint::AtLeast(connection)),
        },
    );
}

// The effect of a refusal: a connection with one track left takes it. It answers the clause of a
// connection without a track.
#[tactic(auto, using(crate::proofs::Growing::grows_none))]
fn settle(problem: &Problem, trail: &mut Trail, connection: u16) -> Option<Hint>
    requires size { IsFor problem.now trail.old }
    requires connection { connection < length problem.now.connections }
    ensures size { IsFor problem.now trail.new }
    ensures grows { Grows problem.now trail.old.entries trail.new.entries }
    ensures answer { MatchOption result (IsServed problem.now trail.new.entries connection) (IsContradicted problem.now trail.new.entries) }
{
    match left_of(problem, trail, connection) {
        Left::Nothing => Some(Hint::AtLeast(connection)),
        Left::One(track) => {
            serve(problem, trail, connection, track);
            None
        }
        Left::Several => None,
    }
}

// The name of a clash.
fn clash_of(one: u16, other: u16, track: u8) -> Hint
    ensures { result ≡ clash_name one other track }
{
    if one < other {
        Hint::Clash {
            first: one,
            second: other,
            track,
        }
    } else {
        Hint::Clash {
            first: other,
            second: one,
            track,
        }
    }
}

// Refuses a connection the track of a choice taken, where the two clash. It answers the clash, if that
// connection has the track.
#[tactic(auto, using(crate::proofs::Growing::grows_none))]
fn keep_off(problem: &Problem, trail: &mut Trail, choice: Choice, other: u16) -> Option<Hint>
    requires size { IsFor problem.now trail.old }
    requires inside { IsAllowed problem.now choice }
    requires is_taken { truth_in trail.old.entries choice ≡ Some true }
    requires other { other < length problem.now.connections }
    ensures size { IsFor problem.now trail.new }
    ensures grows { Grows problem.now trail.old.entries trail.new.entries }
    ensures answer { MatchOption result (IsKeptOff problem.now trail.new.entries choice other) (IsContradicted problem.now trail.new.entries) }
{
    if other == choice.connection {
        return None;
    }
    if !problem.allowed(other, choice.track) {
        return None;
    }
    if !problem.clash(choice.connection, other, choice.track) {
        return None;
    }
    match known(problem, trail, other, choice.track) {
        Some(true) => Some(clash_of(choice.connection, other, choice.track)),
        Some(false) => None,
        None => {
            force(
                problem,
                trail,
                Entry {
                    choice: Choice {
                        connection: other,
                        track: choice.track,
                    },
                    truth: false,
                    why: Some(clash_of(choice.connection, other, choice.track)),
                },
            );
            None
        }
    }
}

// The effect of a choice taken: all others that clash with it are refused.
#[tactic(auto, using(crate::proofs::Growing::grows_none))]
fn spread(problem: &Problem, trail: &mut Trail, choice: Choice) -> Option<Hint>
    requires size { IsFor problem.now trail.old }
    requires inside { IsAllowed problem.now choice }
    requires is_taken { truth_in trail.old.entries choice ≡ Some true }
    ensures size { IsFor problem.now trail.new }
    ensures grows { Grows problem.now trail.old.entries trail.new.entries }
    ensures answer { MatchOption result (AreKeptOff problem.now trail.new.entries choice (length problem.now.connections)) (IsContradicted problem.now trail.new.entries) }
{
    for other in 0..connection_count(problem) {
        match keep_off(problem, trail, choice, other) {
            Some(clash) => return Some(clash),
            None => {}
        }
    }
    None
}

// The effect of one fact.
fn effect(problem: &Problem, trail: &mut Trail, at: usize) -> Option<Hint>
    requires size { IsFor problem.now trail.old }
    requires inside { AreInside problem.now trail.old.entries }
    requires pending { IsPending problem.now trail.old.entries at }
    requires at { at < length trail.old.entries }
    ensures size { IsFor problem.now trail.new }
    ensures grows { Grows problem.now trail.old.entries trail.new.entries }
    ensures answer { MatchOption result (IsPending problem.now trail.new.entries (at + 1)) (IsContradicted problem.now trail.new.entries) }
{
    let entry = trail.entry(at);
    if entry.truth {
        spread(problem, trail, entry.choice)
    } else {
        settle(problem, trail, entry.choice.connection)
    }
}

/// The effects of all facts from a number on. It answers a clause whose parts are all contradicted, if
/// one comes.
#[tactic(auto, using(crate::proofs::Growing::grows_none))]
pub fn propagate(problem: &Problem, trail: &mut Trail, from: usize) -> Option<Hint>
    requires size { IsFor problem.now trail.old }
    requires inside { AreInside problem.now trail.old.entries }
    requires pending { IsPending problem.now trail.old.entries from }
    ensures size { IsFor problem.now trail.new }
    ensures grows { Grows problem.now trail.old.entries trail.new.entries }
    ensures answer { MatchOption result (IsSettled problem.now trail.new.entries) (IsContradicted problem.now trail.new.entries) }
{
    let mut at = from;
    while at < trail.len() {
        match effect(problem, trail, at) {
            Some(clause) => return Some(clause),
            None => {}
        }
        at += 1;
    }
    None
}

// The effects of the clauses themselves, before any choice.
#[tactic(auto, using(crate::proofs::Growing::grows_none))]
pub fn begin(problem: &Problem, trail: &mut Trail) -> Option<Hint>
    requires size { IsFor problem.now trail.old }
    requires empty { trail.old.entries ≡ [] }
    ensures size { IsFor problem.now trail.new }
    ensures grows { Grows problem.now trail.old.entries trail.new.entries }
    ensures answer { MatchOption result (IsSettled problem.now trail.new.entries) (IsContradicted problem.now trail.new.entries) }
{
    for connection in 0..connection_count(problem) {
        match settle(problem, trail, connection) {
            Some(clause) => return Some(clause),
            None => {}
        }
    }
    propagate(problem, trail, 0)
}

/// A choice is taken on, with its effects.
pub fn take_on(problem: &Problem, trail: &mut Trail, choice: Choice) -> Option<Hint>
    requires size { IsFor problem.now trail.old }
    requires inside { AreInside problem.now trail.old.entries }
    requires settled { IsSettled problem.now trail.old.entries }
    requires choice { IsAllowed problem.now choice }
    requires free { truth_in trail.old.entries choice ≡ None }
    ensures size { IsFor problem.now trail.new }
    ensures room { length trail.old.entries < trail.old.places }
    ensures grows { Grows problem.now (trail.old.entries ++ (record { choice = choice; truth = true; why = None }) ∷ []) trail.new.entries }
    ensures answer { MatchOption result (IsSettled problem.now trail.new.entries) (IsContradicted problem.now trail.new.entries) }
{
    let from = trail.len();
    trail.put(Entry {
        choice,
        truth: true,
        why: None,
    });
    let _room = trail.len();
    propagate(problem, trail, from)
}
