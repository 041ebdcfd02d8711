//! Reports: a plan whose channel has no assignment, with the refutation that shows it; their text, and their check.
#![tactic(auto)]

mod check;
mod fault;
mod laws;
mod line;
mod read;
mod report;
mod step;
mod table;
mod write;

pub use check::check_report;
pub use fault::ReportFault;
pub use laws::{one_answer, report_texts_are_exact};
pub use report::Report;
pub use write::report_text;
