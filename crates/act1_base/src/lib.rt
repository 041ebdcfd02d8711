//! What every crate of act1 shares: lists, names, lines and numbers, and the one error of memory.
#![tactic(auto)]

mod hash_seed;
mod items;
mod lines;
mod memory;
mod name;
mod number;
mod place;
mod texts;
mod words;
mod writing;

pub use hash_seed::HashSeed;
pub use items::Items;
pub use lines::{Lines, line_feed};
pub use memory::Memory;
pub use name::{Name, copy_of_name};
pub use number::{NumberFault, read_number, write_number};
pub use place::first_place;
pub use texts::{Format, Stop, TextFault, read_text};
pub use words::{capped_number, is_name, is_number, words_of};
pub use writing::{add_names, add_number, add_word, write_named, write_word};
