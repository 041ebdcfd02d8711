use crate::input::{number, problem_of};
use crate::logs::add_verdict;
use act1_channel::{Choice, Log, Problem, Step};
use act1_search::{SearchStop, Verdict, search};
use std::alloc::Global;
use std::fmt::Write;
use std::rt::Files;

// A log of more steps is told by their number alone.
const FEW_STEPS: usize = 20;

// Adds the tracks of an assignment, and whether they fit.
fn add_tracks(problem: &Problem, tracks: &[u16], text: &mut String) -> Option<()> {
    text.push_str("assigned").ok()?;
    for track in tracks {
        write!(text, " {track}").ok()?;
    }
    text.push_str(if problem.fits(tracks) {
        "\nfits\n"
    } else {
        "\nno fit\n"
    })
    .ok()
}

// Adds a choice.
fn add_choice(choice: Choice, text: &mut String) -> Option<()> {
    write!(text, " {}@{}", choice.connection, choice.track).ok()
}

// Adds the choices of a step.
fn add_step(step: &Step, text: &mut String) -> Option<()> {
    text.push_str("step").ok()?;
    for choice in step.choices.as_slice() {
        add_choice(*choice, text)?;
    }
    text.push('\n').ok()
}

// Adds the number of steps and, where they are few, their choices.
fn add_steps(log: &Log, text: &mut String) -> Option<()> {
    writeln!(text, "refuted {}", log.steps.len()).ok()?;
    if log.steps.len() <= FEW_STEPS {
        for step in log.steps.as_slice() {
            add_step(step, text)?;
        }
    }
    Some(())
}

// Adds a log's steps, and whether it is accepted.
fn add_refutation(alloc: Global, problem: &Problem, log: &Log, text: &mut String) -> Option<()> {
    add_steps(log, text)?;
    add_verdict(alloc, problem, log, text)
}

// Adds how the search of a problem ends.
fn add_verdict_of(
    alloc: Global,
    problem: &Problem,
    verdict: &Verdict,
    text: &mut String,
) -> Option<()> {
    match verdict {
        Verdict::Assigned(tracks) => add_tracks(problem, tracks.as_slice(), text),
        Verdict::Refuted(log) => add_refutation(alloc, problem, log, text),
    }
}

// Adds what the search of a problem answers.
fn add_search(alloc: Global, problem: &Problem, budget: u64, text: &mut String) -> Option<()> {
    if budget == 0 {
        return None;
    }
    match search(alloc, problem, budget) {
        Ok(verdict) => add_verdict_of(alloc, problem, &verdict, text),
        Err(SearchStop::Spent { conflicts }) => writeln!(text, "spent {conflicts}").ok(),
        Err(SearchStop::Memory) => None,
    }
}

/// The row `search JOB N`.
pub fn search_row<R: Files>(
    rt: &R,
    alloc: Global,
    words: &[&str],
    text: &mut String,
) -> Option<()> {
    let [job, budget] = words else {
        return None;
    };
    let problem = problem_of(rt, alloc, job)?;
    add_search(alloc, &problem, number(budget)?, text)
}
