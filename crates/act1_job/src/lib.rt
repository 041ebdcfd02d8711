//! The text of a job: a channel problem and the budget of its search, as a helper is given them.
#![tactic(auto)]

mod draft;
mod fault;
mod job;
mod laws;
mod line;
mod read;
mod rules;
mod step;
mod table;
mod write;

pub use fault::JobFault;
pub use job::Job;
pub use laws::job_texts_are_exact;
pub use read::read_job;
pub use write::job_text;
