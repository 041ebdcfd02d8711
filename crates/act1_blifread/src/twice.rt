ghost use Rattle.std.specs.Prelude.{◌≡◌, ◌++◌, ℕ, List, length, IsTrue, IfOk, not, ◌&&◌, false};
ghost use Rattle.act1_base.specs.Names.{are_different_numbers};
ghost use Rattle.act1_bliftext.specs.Rules.{is_statement};
ghost use Rattle.act1_blifread.specs.Parts.{given_names, output_names};
ghost use Rattle.act1_blifread.specs.NetlistSteps.{are_within, AreMarks, IsFirstLine};

use crate::marks::is_marked_again;
use act1_base::Memory;
use act1_bliftext::{BlifKind, NumberedStatement, Statement};
use std::alloc::Global;

// Marks what a statement gives, and what it has in `.outputs`; whether one of these comes again.
fn is_given_again(given: &mut Vec<bool>, shown: &mut Vec<bool>, statement: &Statement) -> bool
    requires all { length given.old.items ≡ length shown.old.items }
    requires within { IsTrue (is_statement (length given.old.items) statement.now) }
    ensures again { (names outputs : List ℕ) → AreMarks (length given.old.items) names given.old.items
        → AreMarks (length given.old.items) outputs shown.old.items
        → result ≡ not (are_different_numbers (names ++ given_names statement.now) && are_different_numbers (outputs ++ output_names statement.now)) }
    ensures given { (names : List ℕ) → AreMarks (length given.old.items) names given.old.items → result ≡ false
        → AreMarks (length given.old.items) (names ++ given_names statement.now) given.new.items }
    ensures shown { (outputs : List ℕ) → AreMarks (length given.old.items) outputs shown.old.items → result ≡ false
        → AreMarks (length given.old.items) (outputs ++ output_names statement.now) shown.new.items }
{
    match statement {
        Statement::Inputs(names) => is_marked_again(given, names.as_slice()),
        Statement::Outputs(names) => is_marked_again(shown, names.as_slice()),
        Statement::Clock(_) => false,
        Statement::Names { output, .. } => is_marked_again(given, &[*output]),
        Statement::Latch { output, .. } => is_marked_again(given, &[*output]),
    }
}

/// The line of the first statement that gives a name a second time, or has one in `.outputs` a
/// second time.
pub fn twice_line(
    alloc: Global,
    count: usize,
    statements: &[NumberedStatement],
) -> Result<Option<u32>, Memory>
    requires { IsTrue (are_within count statements.now) }
    ensures { IfOk result (IsFirstLine statements.now BlifKind.Twice) }
{
    let mut given = vec![in alloc; false; count]?;
    let mut shown = vec![in alloc; false; count]?;
    for numbered in statements {
        if is_given_again(&mut given, &mut shown, &numbered.statement) {
            return Ok(Some(numbered.line));
        }
    }
    Ok(None)
}
