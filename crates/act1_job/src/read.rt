ghost use Rattle.std.specs.Prelude.{◌≡◌, ◌≤◌, IsTrue, length};
ghost use Rattle.act1_channel.specs.Ranges.{is_problem};
ghost use Rattle.act1_job.specs.Lines.{draft_of};
ghost use Rattle.act1_job.specs.Reads.{JobReads, ReadsAgain, IsJobText};
ghost use Rattle.act1_job.specs.Steps.{job_rules};

use crate::draft::Draft;
use crate::fault::JobFault;
use crate::job::Job;
use crate::line::JobState;
use crate::step::step;
use crate::table::read_job_line;
use act1_base::{Format, Memory, Stop, TextFault, read_text};
use act1_channel::Problem;
use std::alloc::Global;

// The format of the texts of jobs.
#[derive(Drop)]
struct JobFormat {
    alloc: Global,
}

impl Format for JobFormat {
    type State = JobState;

    type Kind = ();

    ghost rules = { λ format. job_rules };

    ghost is_text = { λ format. IsJobText };

    fn start(&self) -> Result<JobState, Memory> {
        Ok(JobState::Start)
    }

    fn after(&self, state: JobState, line: &[u8]) -> Result<JobState, Stop<()>> {
        match read_job_line(self.alloc, line)? {
            Some(line) => step(self.alloc, state, line),
            None => Err(Stop::Fault(())),
        }
    }

    fn unended(&self, _state: &JobState) {}

    fn end(&self, state: &JobState) -> Option<()> {
        match state {
            JobState::End { .. } => None,
            _ => Some(()),
        }
    }
}

// The job that the draft is.
fn job_of(draft: Draft) -> Job
    requires { IsTrue (is_problem draft.columns draft.k draft.tracks draft.connections) }
    ensures { draft_of result ≡ draft }
{
    let problem = Problem {
        columns: draft.columns,
        k: draft.k,
        tracks: draft.tracks,
        connections: draft.connections,
    };
    Job {
        problem,
        budget: draft.budget,
    }
}

/// The job that the bytes spell, or the first faulty line. The format is that of `job_text`, and the ranges are
/// those of `Problem` and `Job`: tracks come before connections, and there is at least one. So `Ok` comes exactly
/// for the text of a job within these ranges, with that job.
pub fn read_job(alloc: Global, bytes: &[u8]) -> Result<Job, JobFault>
    requires { length bytes.now ≤ 4000000000 }
    ensures first { JobReads bytes.now result }
    ensures again { ReadsAgain bytes.now result }
{
    let format = JobFormat { alloc };
    match read_text(&format, bytes) {
        Ok(state) => match state {
            JobState::End { draft } => Ok(job_of(draft)),
            _ => unreachable!(),
        },
        Err(Stop::Fault(TextFault { line, kind: _ })) => Err(JobFault::Line(line)),
        Err(Stop::Memory) => Err(JobFault::Memory),
    }
}
