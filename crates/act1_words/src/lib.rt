//! The words of the command line: which command they ask for, with its files and options.
#![tactic(auto)]

mod arguments;
mod blif_words;
mod check_words;
mod command;
mod cover_words;
mod demo_words;
mod extract_words;
mod flow_words;
mod search_words;
mod sim_words;
mod words;

pub use act1_frame::Word;
pub use command::{
    BlifWords, CheckWords, Command, CoverWords, DemoWords, ExtractWords, FlowWords, SearchWords,
    SimWords,
};
pub use words::command_of;
