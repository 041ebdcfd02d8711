//! What lies outside the program, as traits: files, a place to print, and helpers that search. With
//! them come objects in memory that meet the traits, for tests and for runs without helpers.
#![tactic(auto)]

mod calls;
mod failures;
mod fake_helpers;
mod files;
mod helpers;
mod memory_files;
mod memory_sink;
mod no_helpers;
mod sink;
mod tear;
mod tickets;

pub use failures::Failures;
pub use fake_helpers::FakeHelpers;
pub use files::{FileFault, Files};
pub use helpers::{Entry, HelperFault, Helpers};
pub use memory_files::MemoryFiles;
pub use memory_sink::MemorySink;
pub use no_helpers::NoHelpers;
pub use sink::{Sink, SinkFault};
pub use tickets::Tickets;
