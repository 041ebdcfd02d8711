ghost use Rattle.std.specs.Prelude.{IsTrue};
ghost use Rattle.act1_bliftext.specs.Rules.{are_statements};

use crate::statement::NumberedStatement;
use act1_base::{Items, Name};

/// What a BLIF text says, line by line, where no line has a fault.
///
/// The names fit the rule for names, differ and are at most 65,535; the model's name fits the rule
/// too; each number is that of a name, each cover has the inputs of its `.names`, and each init is 0
/// to 3.
#[derive(Debug, Drop)]
pub struct Statements {
    /// The name behind `.model`, if there is one.
    pub model: Option<Name>,
    /// The names in the order of their first use, without the model's.
    pub names: Items<Name>,
    /// The statements in the order of their lines, without `.model` and `.end`.
    pub statements: Items<NumberedStatement>,
    pub ghost valid: { IsTrue (are_statements model names statements) },
}
