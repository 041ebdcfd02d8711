ghost use Rattle.std.specs.Prelude.{ℕ, ◌≡◌, ◌<◌, ◌≤◌, ◌⊎◌, length, slice_get, Some, None, Contains, OnOk, OnErr, IfOk, replicate, []};
ghost use Rattle.act1_farm.specs.Story.{asked_for, job_bytes, jobs_of};
ghost use Rattle.act1_farm.specs.Jobs.{BeganStory};
ghost use Rattle.act1_farm.specs.Course.{running_of};
ghost use Rattle.act1_farm.specs.Steps.{AskGives, AskStops, FinishGives, FinishStops, GoesOn, AreChannels, IsOnCourse};
ghost use Rattle.act1_farm.specs.Helping.{Helped};

use crate::course::{Course, Started};
use crate::usable::verdict_of;
use act1_base::{Items, Memory};
use act1_channel::Problem;
use act1_job::job_text;
use act1_outside::{HelperFault, Helpers};
use std::alloc::Global;

// Asks for one job.
fn ask<H: Helpers>(
    helpers: &mut H,
    program: &str,
    job: &[u8],
    course: &mut Course,
) -> Result<(), Memory>
    requires asked { course.old.asked < 65535 }
    requires faults { course.old.faults < 1000000 }
    ensures ok { OnOk result (AskGives program.now job.now (H.seen helpers.old) course.old (H.seen helpers.new) course.new) }
    ensures err { OnErr result (AskStops program.now job.now (H.seen helpers.old) (H.seen helpers.new)) }
{
    match helpers.start(program, job) {
        Ok(ticket) => {
            course.started.push(Started {
                ticket,
                number: course.asked,
            })?;
            course.asked += 1;
            Ok(())
        }
        Err(HelperFault::Failed) => {
            course.asked += 1;
            course.faults += 1;
            Ok(())
        }
        Err(HelperFault::Memory) => Err(Memory),
    }
}

// Takes the answer of a helper.
fn finish<H: Helpers>(
    alloc: Global,
    problem: &Problem,
    started: Started,
    helpers: &mut H,
    course: &mut Course,
) -> Result<(), Memory>
    requires open { Contains (H.seen helpers.old).open_tickets started.ticket }
    requires done { course.old.done < 65535 }
    requires faults { course.old.faults < 1000000 }
    requires number { started.number < length course.old.answers }
    ensures ok { OnOk result (FinishGives problem.now started (H.seen helpers.old) course.old (H.seen helpers.new) course.new) }
    ensures err { OnErr result (FinishStops started.ticket (H.seen helpers.old) (H.seen helpers.new)) }
{
    match helpers.finish(alloc, started.ticket) {
        Ok(bytes) => match verdict_of(alloc, problem, bytes.as_slice())? {
            Some(verdict) => {
                course.done += 1;
                course
                    .answers
                    .set(usize::from(started.number), Some(verdict));
                Ok(())
            }
            None => {
                course.done += 1;
                Ok(())
            }
        },
        Err(HelperFault::Failed) => {
            course.done += 1;
            course.faults += 1;
            Ok(())
        }
        Err(HelperFault::Memory) => Err(Memory),
    }
}

// The problem that is asked for as this one.
fn problem_at<'a>(problems: &'a [Problem], channels: &[u16], number: u16) -> &'a Problem
    requires channels { AreChannels problems.now channels.now }
    requires number { number < length channels.now }
    ensures { slice_get (asked_for problems.now) number ≡ Some result.now }
{
    &problems[usize::from(channels[usize::from(number)])]
}

// Asks for one problem.
fn ask_for<H: Helpers>(
    alloc: Global,
    problem: &Problem,
    budget: u64,
    program: &str,
    helpers: &mut H,
    course: &mut Course,
) -> Result<(), Memory>
    requires asked { course.old.asked < 65535 }
    requires faults { course.old.faults < 1000000 }
    ensures ok { OnOk result (AskGives program.now (job_bytes budget problem.now) (H.seen helpers.old) course.old (H.seen helpers.new) course.new) }
    ensures err { OnErr result (AskStops program.now (job_bytes budget problem.now) (H.seen helpers.old) (H.seen helpers.new)) }
{
    let job = job_text(alloc, problem, budget)?;
    ask(helpers, program, job.as_slice(), course)
}

// How many helpers are running.
fn running(course: &Course) -> usize
    requires { course.now.done ≤ length course.now.started }
    ensures { result ≡ length (running_of course.now) }
{
    course.started.len() - course.done
}

// The oldest helper that isn't finished.
fn oldest(course: &Course) -> Started
    requires { course.now.done < length course.now.started }
    ensures { slice_get course.now.started course.now.done ≡ Some result }
{
    course.started.as_slice()[course.done]
}

// Asks for the next problem.
fn ask_next<H: Helpers>(
    alloc: Global,
    problems: &[Problem],
    channels: &[u16],
    budget: u64,
    jobs: u8,
    program: &str,
    helpers: &mut H,
    course: &mut Course,
) -> Result<(), Memory>
    requires channels { AreChannels problems.now channels.now }
    requires few { length channels.now ≤ 65535 }
    requires course { IsOnCourse program.now (asked_for problems.now) budget jobs (H.seen helpers.old) course.old }
    requires next { course.old.asked < length channels.now }
    requires low { length (running_of course.old) < jobs }
    ensures { GoesOn program.now problems.now budget jobs (H.seen helpers.old) course.old result (H.seen helpers.new) course.new }
{
    let problem = problem_at(problems, channels, course.asked);
    ask_for(alloc, problem, budget, program, helpers, course)
}

// Finishes the oldest helper.
fn finish_next<H: Helpers>(
    alloc: Global,
    problems: &[Problem],
    channels: &[u16],
    budget: u64,
    jobs: u8,
    program: &str,
    helpers: &mut H,
    course: &mut Course,
) -> Result<(), Memory>
    requires channels { AreChannels problems.now channels.now }
    requires few { length channels.now ≤ 65535 }
    requires course { IsOnCourse program.now (asked_for problems.now) budget jobs (H.seen helpers.old) course.old }
    requires some { course.old.done < length course.old.started }
    requires full { (jobs ≤ length (running_of course.old)) ⊎ (length channels.now ≤ course.old.asked) }
    ensures { GoesOn program.now problems.now budget jobs (H.seen helpers.old) course.old result (H.seen helpers.new) course.new }
{
    let started = oldest(course);
    let problem = problem_at(problems, channels, started.number);
    finish(alloc, problem, started, helpers, course)
}

// Asks for the next problem where that may be, and else finishes the oldest helper.
fn step<H: Helpers>(
    alloc: Global,
    problems: &[Problem],
    channels: &[u16],
    budget: u64,
    jobs: u8,
    program: &str,
    helpers: &mut H,
    course: &mut Course,
) -> Result<(), Memory>
    requires channels { AreChannels problems.now channels.now }
    requires few { length channels.now ≤ 65535 }
    requires jobs { 0 < jobs }
    requires course { IsOnCourse program.now (asked_for problems.now) budget jobs (H.seen helpers.old) course.old }
    requires left { (course.old.asked < length channels.now) ⊎ (course.old.done < length course.old.started) }
    ensures { GoesOn program.now problems.now budget jobs (H.seen helpers.old) course.old result (H.seen helpers.new) course.new }
{
    if usize::from(course.asked) < channels.len() {
        if running(course) < usize::from(jobs) {
            return ask_next(
                alloc, problems, channels, budget, jobs, program, helpers, course,
            );
        }
    }
    finish_next(
        alloc, problems, channels, budget, jobs, program, helpers, course,
    )
}

/// A course before any call. The one error is `Memory`.
pub fn begin(alloc: Global, channels: usize) -> Result<Course, Memory>
    ensures { IfOk result (λ course. course ≡ record { started = []; done = 0; asked = 0; faults = 0; answers = replicate channels None }) }
{
    let mut answers = Items::new(alloc);
    for _channel in 0..channels {
        answers.push(None)?;
    }
    Ok(Course {
        started: Items::new(alloc),
        done: 0,
        asked: 0,
        faults: 0,
        answers,
    })
}

/// Asks helpers for the problems of these channels, and takes their answers. The one error is `Memory`.
pub fn ask_all<H: Helpers>(
    alloc: Global,
    problems: &[Problem],
    channels: &[u16],
    budget: u64,
    jobs: u8,
    program: &str,
    helpers: &mut H,
) -> Result<Course, Memory>
    requires channels { AreChannels problems.now channels.now }
    requires few { length channels.now ≤ 65535 }
    requires jobs { 0 < jobs }
    ensures ok { IfOk result (Helped program.now problems.now budget jobs (H.seen helpers.old) (H.seen helpers.new)) }
    ensures err { OnErr result (BeganStory program.now (jobs_of budget (asked_for problems.now)) jobs (H.seen helpers.old) (H.seen helpers.new)) }
{
    let mut course = begin(alloc, channels.len())?;
    while usize::from(course.asked) < channels.len() || course.done < course.started.len() {
        step(
            alloc,
            problems,
            channels,
            budget,
            jobs,
            program,
            helpers,
            &mut course,
        )?;
    }
    Ok(course)
}
