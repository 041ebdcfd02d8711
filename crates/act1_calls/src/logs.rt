use crate::arrays::add_bytes;
use crate::input::{bytes_up_to, problem_of, text_of};
use act1_channel::{Log, Problem};
use act1_logtext::{Answer, LogFault, answer_text, log_text, read_answer, read_log};
use act1_refute::{CheckFault, check};
use std::alloc::Global;
use std::fmt::Write;
use std::rt::Files;

// A file that is only checked has at most so many bytes.
const MOST_BYTES: u64 = 1 << 28;

// Adds the line that is refused; there is none where memory is short.
fn add_fault(fault: LogFault, text: &mut String) -> Option<()> {
    match fault {
        LogFault::Line(line) => writeln!(text, "line {line}").ok(),
        LogFault::Memory => None,
    }
}

// The log that the bytes spell, or why there is none.
fn log_in(alloc: Global, bytes: &[u8]) -> Result<Log, LogFault> {
    if bytes.len() > 4_000_000_000 {
        return Err(LogFault::Memory);
    }
    read_log(alloc, bytes)
}

// The answer that the bytes spell, or why there is none.
fn answer_in(alloc: Global, bytes: &[u8]) -> Result<Answer, LogFault> {
    if bytes.len() > 4_000_000_000 {
        return Err(LogFault::Memory);
    }
    read_answer(alloc, bytes)
}

// Adds the log as it is written.
fn add_log(alloc: Global, log: &Log, text: &mut String) -> Option<()> {
    let bytes = log_text(alloc, log).ok()?;
    add_bytes(text, &bytes)
}

/// The row `log TEXT`.
pub fn log_row(alloc: Global, words: &[&str], text: &mut String) -> Option<()> {
    let bytes = text_of(alloc, words)?;
    match log_in(alloc, &bytes) {
        Ok(log) => add_log(alloc, &log, text),
        Err(fault) => add_fault(fault, text),
    }
}

// Adds the answer as it is written.
fn add_written(alloc: Global, answer: &Answer, text: &mut String) -> Option<()> {
    let bytes = answer_text(alloc, answer).ok()?;
    add_bytes(text, &bytes)
}

/// The row `answer TEXT`.
pub fn answer_row(alloc: Global, words: &[&str], text: &mut String) -> Option<()> {
    let bytes = text_of(alloc, words)?;
    match answer_in(alloc, &bytes) {
        Ok(answer) => add_written(alloc, &answer, text),
        Err(fault) => add_fault(fault, text),
    }
}

/// Adds what the check of a log answers.
pub fn add_verdict(alloc: Global, problem: &Problem, log: &Log, text: &mut String) -> Option<()> {
    match check(alloc, problem, log) {
        Ok(()) => text.push_str("accepted\n").ok(),
        Err(CheckFault::Step(step)) => writeln!(text, "step {step}").ok(),
        Err(CheckFault::Unfinished) => text.push_str("unfinished\n").ok(),
        Err(CheckFault::Memory) => None,
    }
}

// Adds what the check of a log's text answers.
fn add_check(alloc: Global, problem: &Problem, bytes: &[u8], text: &mut String) -> Option<()> {
    match log_in(alloc, bytes) {
        Ok(log) => add_verdict(alloc, problem, &log, text),
        Err(fault) => add_fault(fault, text),
    }
}

/// The row `check JOB TEXT`.
pub fn check_row<R: Files>(rt: &R, alloc: Global, words: &[&str], text: &mut String) -> Option<()> {
    let (job, words) = words.split_first()?;
    let problem = problem_of(rt, alloc, job)?;
    let bytes = text_of(alloc, words)?;
    add_check(alloc, &problem, &bytes, text)
}

/// The row `checked JOB LOG`.
pub fn checked_row<R: Files>(
    rt: &R,
    alloc: Global,
    words: &[&str],
    text: &mut String,
) -> Option<()> {
    let [job, log] = words else {
        return None;
    };
    let problem = problem_of(rt, alloc, job)?;
    let bytes = bytes_up_to(rt, alloc, log, MOST_BYTES)?;
    add_check(alloc, &problem, &bytes, text)
}

// Whether the log is written as these bytes.
fn is_written_so(alloc: Global, bytes: &[u8]) -> Option<bool> {
    let log = log_in(alloc, bytes).ok()?;
    let written = log_text(alloc, &log).ok()?;
    Some(written.as_slice() == bytes)
}

/// The row `copied LOG`.
pub fn copied_row<R: Files>(
    rt: &R,
    alloc: Global,
    words: &[&str],
    text: &mut String,
) -> Option<()> {
    let [log] = words else {
        return None;
    };
    let bytes = bytes_up_to(rt, alloc, log, MOST_BYTES)?;
    let same = is_written_so(alloc, &bytes)?;
    text.push_str(if same { "same\n" } else { "other\n" }).ok()
}
