use crate::show::show_text;
use act1_outside::Entry;
use std::alloc::{AllocError, Global};
use std::fmt::Write;

// Adds the line of a call.
fn show_entry(out: &mut String, entry: &Entry) -> Result<(), AllocError> {
    match entry {
        Entry::Started {
            program,
            job,
            ticket,
        } => {
            out.push_str("start ")?;
            show_text(out, program.as_slice())?;
            write!(out, " {ticket} ")?;
            show_text(out, job.as_slice())?;
        }
        Entry::Refused { program, job } => {
            out.push_str("refuse ")?;
            show_text(out, program.as_slice())?;
            out.push(' ')?;
            show_text(out, job.as_slice())?;
        }
        Entry::Answered { ticket, bytes } => {
            write!(out, "answer {ticket} ")?;
            show_text(out, bytes.as_slice())?;
        }
        Entry::Lost { ticket } => write!(out, "lose {ticket}")?,
    }
    out.push('\n')
}

/// A story, with each of its calls in a line: what was started or refused, with the job, and what was answered or lost.
pub fn show_story(alloc: Global, story: &[Entry]) -> Result<String, AllocError> {
    let mut out = String::new(alloc);
    for entry in story {
        show_entry(&mut out, entry)?;
    }
    Ok(out)
}
