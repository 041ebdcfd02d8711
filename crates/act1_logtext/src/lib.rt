//! The texts of refutations and of answers: what a search of a channel writes, and what a checker reads.
#![tactic(auto)]

mod answer;
mod answer_read;
mod answer_step;
mod answer_table;
mod answer_write;
mod draft;
mod fault;
mod logs;
mod step_read;
mod steps;

pub use answer::Answer;
pub use answer_read::read_answer;
pub use answer_write::answer_text;
pub use fault::LogFault;
pub use logs::{add_step, log_text, read_log};
pub use step_read::{is_step_line, read_step_line};
pub use steps::{STEP_FORM, step_line, write_steps};
