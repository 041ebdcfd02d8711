use crate::names::Names;
use crate::open_names::OpenNames;
use crate::statement::NumberedStatement;
use act1_base::{Items, Name};

/// What the lines so far say.
#[derive(Drop)]
pub struct Reading {
    /// The model's name.
    pub model: Option<Name>,
    /// The names so far.
    pub names: Names,
    /// What is said so far, but for a last `.names` that is still open.
    pub statements: Items<NumberedStatement>,
    /// The `.names` to which a row would belong.
    pub open_names: Option<OpenNames>,
    /// Whether there was a line with words.
    pub is_later: bool,
    /// Whether there was an `.end`.
    pub has_ended: bool,
}
