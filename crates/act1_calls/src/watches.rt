ghost use Rattle.std.specs.Prelude.{◌<◌, ◌≤◌, ◌≡◌, length, IfSome};

use crate::channels::{connection_of, track_of};
use crate::input::problem_of;
use act1_channel::{Choice, Problem};
use act1_search::Watch;
use std::alloc::Global;
use std::fmt::Write;
use std::rt::Files;

// The choice that a word `C@T` spells, if the problem has both.
fn choice_of(problem: &Problem, word: &str) -> Option<Choice>
    ensures connection { IfSome result (λ c. c.connection < length problem.now.connections) }
    ensures track { IfSome result (λ c. c.track < length problem.now.tracks) }
{
    let (connection, track) = word.split_once('@')?;
    let connection = connection_of(problem, connection)?;
    let track = track_of(problem, track)?;
    Some(Choice { connection, track })
}

// Assumes a choice: `None` where that can't be.
fn assume(problem: &Problem, watch: &mut Watch<'_>, choice: Choice) -> Option<()>
    requires same { watch.old.problem ≡ problem.now }
    requires connection { choice.connection < length problem.now.connections }
    requires track { choice.track < length problem.now.tracks }
    ensures { watch.new.problem ≡ problem.now }
{
    if watch.conflict() || !problem.allowed(choice.connection, choice.track) {
        return None;
    }
    if watch.fact(choice).is_some() {
        return None;
    }
    watch.assume(choice);
    Some(())
}

// Makes a step of the choices in conflict: `None` where there are none.
fn learn(watch: &mut Watch<'_>) -> Option<()>
    ensures { watch.new.problem ≡ watch.old.problem }
{
    if !watch.conflict() || watch.depth() == 0 {
        return None;
    }
    watch.learn().ok()
}

// Does what a word says.
fn take_word(problem: &Problem, watch: &mut Watch<'_>, word: &str) -> Option<()>
    requires { watch.old.problem ≡ problem.now }
    ensures { watch.new.problem ≡ problem.now }
{
    if word == "learn" {
        return learn(watch);
    }
    let choice = choice_of(problem, word)?;
    assume(problem, watch, choice)
}

// Adds the fact about a choice, if there is one: a refusal with a bar in front.
fn add_fact(watch: &Watch<'_>, choice: Choice, text: &mut String) -> Option<()>
    requires connection { choice.connection < length watch.now.problem.connections }
    requires track { choice.track < length watch.now.problem.tracks }
{
    match watch.fact(choice) {
        Some(true) => write!(text, " {}@{}", choice.connection, choice.track).ok(),
        Some(false) => write!(text, " |{}@{}", choice.connection, choice.track).ok(),
        None => Some(()),
    }
}

// Adds how many choices there are, and whether they are in conflict or what the facts are.
fn add_state(problem: &Problem, watch: &Watch<'_>, text: &mut String) -> Option<()>
    requires { watch.now.problem ≡ problem.now }
{
    write!(text, "{}", watch.depth()).ok()?;
    if watch.conflict() {
        return text.push_str(" conflict\n").ok();
    }
    let connections = u16::try_from(problem.connections.len()).ok()?;
    let tracks = u8::try_from(problem.tracks.len()).ok()?;
    for connection in 0..connections {
        for track in 0..tracks {
            add_fact(watch, Choice { connection, track }, text)?;
        }
    }
    text.push('\n').ok()
}

// Adds what holds at first, and after what each word says.
fn add_states(alloc: Global, problem: &Problem, words: &[&str], text: &mut String) -> Option<()> {
    let mut watch = Watch::new(alloc, problem).ok()?;
    add_state(problem, &watch, text)?;
    for word in words {
        take_word(problem, &mut watch, word)?;
        add_state(problem, &watch, text)?;
    }
    Some(())
}

/// The row `watch JOB WORD ..`.
pub fn watch_row<R: Files>(rt: &R, alloc: Global, words: &[&str], text: &mut String) -> Option<()> {
    let (job, words) = words.split_first()?;
    let problem = problem_of(rt, alloc, job)?;
    add_states(alloc, &problem, words, text)
}
