//! The lines of the project's own texts as data: a table says what a line of a text is, with one reader of a
//! line, one writer of a line, and one law for all tables.
#![tactic(auto)]

mod forms;
mod given;
mod laws;
mod numbers;
mod read;
mod values;
mod words;
mod write;

pub use forms::{Field, Form, Given, Limit, LineGiven, Part};
pub use laws::lines_say_one_thing;
pub use numbers::Numbers;
pub use read::{read_line, read_word};
pub use values::{at_most, name_at, number_at, numbers_at, way_at};
pub use words::Words;
pub use write::write_line;
