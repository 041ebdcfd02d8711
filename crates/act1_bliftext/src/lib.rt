//! The text of BLIF: its joined lines, and what each of them says.
#![tactic(auto)]

mod after;
mod fault;
mod finish;
mod form;
mod forms;
mod latch;
mod laws;
mod names;
mod open_names;
mod place;
mod printing;
mod read;
mod reading;
mod rows;
mod statement;
mod statements;
mod step;
mod words;

pub use fault::{BlifFault, BlifKind};
pub use finish::read_statements;
pub use laws::{texts_are_exact, written_lines_are_read};
pub use printing::write_blif_fault;
pub use statement::{NumberedStatement, Statement};
pub use statements::Statements;
