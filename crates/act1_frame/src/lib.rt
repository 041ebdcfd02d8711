//! How a command runs, whatever the command is: files are read stage by stage, an ending is decided,
//! and then it is written and printed.
#![tactic(auto)]

mod ending;
mod endings;
mod finishing;
mod reading;
mod stop;
mod word;

pub use ending::{Ending, FileText};
pub use endings::{named_refusal, with_text};
pub use finishing::{finish, say_memory};
pub use reading::read;
pub use stop::Stop;
pub use word::Word;
