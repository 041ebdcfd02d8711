use crate::arrays::add_bytes;
use crate::input::bytes_of;
use act1_job::{Job, JobFault, job_text, read_job};
use std::alloc::Global;
use std::fmt::Write;
use std::rt::Files;

// Adds the text of a job as it is written.
fn add_written(alloc: Global, job: &Job, text: &mut String) -> Option<()> {
    let bytes = job_text(alloc, &job.problem, job.budget).ok()?;
    add_bytes(text, &bytes)
}

// Adds the job that some bytes spell as it is written, or the line that is refused.
fn add_job(alloc: Global, bytes: &[u8], text: &mut String) -> Option<()> {
    if bytes.len() > 4_000_000_000 {
        return None;
    }
    match read_job(alloc, bytes) {
        Ok(job) => add_written(alloc, &job, text),
        Err(JobFault::Line(line)) => writeln!(text, "line {line}").ok(),
        Err(JobFault::Memory) => None,
    }
}

/// The row `job JOB`.
pub fn job_row<R: Files>(rt: &R, alloc: Global, words: &[&str], text: &mut String) -> Option<()> {
    let [job] = words else {
        return None;
    };
    let bytes = bytes_of(rt, alloc, job)?;
    add_job(alloc, &bytes, text)
}
