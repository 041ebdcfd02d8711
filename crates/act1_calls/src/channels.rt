ghost use Rattle.std.specs.Prelude.{◌<◌, length, IfSome};

use crate::input::{number, problem_of};
use act1_channel::Problem;
use std::alloc::Global;
use std::fmt::Write;
use std::rt::Files;

/// The connection of this number, if the problem has it.
pub fn connection_of(problem: &Problem, word: &str) -> Option<u16>
    ensures { IfSome result (λ c. c < length problem.now.connections) }
{
    let c = u16::try_from(number(word)?).ok()?;
    if usize::from(c) < problem.connections.len() {
        Some(c)
    } else {
        None
    }
}

/// The track of this number, if the problem has it.
pub fn track_of(problem: &Problem, word: &str) -> Option<u8>
    ensures { IfSome result (λ t. t < length problem.now.tracks) }
{
    let t = u8::try_from(number(word)?).ok()?;
    if usize::from(t) < problem.tracks.len() {
        Some(t)
    } else {
        None
    }
}

// Adds `yes` or `no`.
fn add_answer(text: &mut String, answer: bool) -> Option<()> {
    text.push_str(if answer { "yes\n" } else { "no\n" }).ok()
}

// Adds how many segments of the track the connection overlaps.
fn add_segments(problem: &Problem, c: &str, t: &str, text: &mut String) -> Option<()> {
    let c = connection_of(problem, c)?;
    let t = track_of(problem, t)?;
    writeln!(text, "{}", problem.segments(c, t)).ok()
}

/// The row `segments JOB C T`.
pub fn segments_row<R: Files>(
    rt: &R,
    alloc: Global,
    words: &[&str],
    text: &mut String,
) -> Option<()> {
    let [job, c, t] = words else {
        return None;
    };
    let problem = problem_of(rt, alloc, job)?;
    add_segments(&problem, c, t, text)
}

// Adds whether the connection may take the track.
fn add_allowed(problem: &Problem, c: &str, t: &str, text: &mut String) -> Option<()> {
    let c = connection_of(problem, c)?;
    let t = track_of(problem, t)?;
    add_answer(text, problem.allowed(c, t))
}

/// The row `allowed JOB C T`.
pub fn allowed_row<R: Files>(
    rt: &R,
    alloc: Global,
    words: &[&str],
    text: &mut String,
) -> Option<()> {
    let [job, c, t] = words else {
        return None;
    };
    let problem = problem_of(rt, alloc, job)?;
    add_allowed(&problem, c, t, text)
}

// Adds whether the connections overlap a common segment of the track.
fn add_clash(problem: &Problem, c: &str, d: &str, t: &str, text: &mut String) -> Option<()> {
    let c = connection_of(problem, c)?;
    let d = connection_of(problem, d)?;
    let t = track_of(problem, t)?;
    add_answer(text, problem.clash(c, d, t))
}

/// The row `clash JOB C D T`.
pub fn clash_row<R: Files>(rt: &R, alloc: Global, words: &[&str], text: &mut String) -> Option<()> {
    let [job, c, d, t] = words else {
        return None;
    };
    let problem = problem_of(rt, alloc, job)?;
    add_clash(&problem, c, d, t, text)
}

// The numbers of the words.
fn tracks_of(alloc: Global, words: &[&str]) -> Option<Vec<u16>> {
    let mut tracks = Vec::new(alloc);
    for word in words {
        tracks.push(u16::try_from(number(word)?).ok()?).ok()?;
    }
    Some(tracks)
}

/// The row `fits JOB T ..`.
pub fn fits_row<R: Files>(rt: &R, alloc: Global, words: &[&str], text: &mut String) -> Option<()> {
    let (job, tracks) = words.split_first()?;
    let problem = problem_of(rt, alloc, job)?;
    let tracks = tracks_of(alloc, tracks)?;
    add_answer(text, problem.fits(&tracks))
}
