//! The commands of act1: words and files in, a status, printed lines and files out.
#![tactic(auto)]

mod blif_command;
mod check_command;
mod cover_command;
mod decide;
mod demo_command;
mod extract_command;
mod flow_command;
mod flow_lines;
mod found;
mod laws;
mod program;
mod search_command;
mod sim_command;

pub use program::run;
