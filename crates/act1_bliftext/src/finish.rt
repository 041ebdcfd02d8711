ghost use Rattle.std.specs.Prelude.{List, ◌≡◌, ◌⊎◌, ◌≤◌, length, IfOk, IfErr};
ghost use Rattle.act1_bliftext.specs.Faults.{LineBad};
ghost use Rattle.act1_bliftext.specs.Lines.{Line};
ghost use Rattle.act1_bliftext.specs.PlaceSteps.{IsWhole};
ghost use Rattle.act1_bliftext.specs.ReadingSteps.{IsRead};
ghost use Rattle.act1_bliftext.specs.Statements.{Say, StatementsOf};
ghost use Rattle.act1_bliftext.specs.declared.fault.BlifKind.TheVariants as kind;

use crate::fault::BlifFault;
use crate::read::read_lines;
use crate::reading::Reading;
use crate::statements::Statements;
use crate::step::close;
use act1_base::{HashSeed, Memory};
use std::alloc::Global;

// What a whole text says.
fn statements_of(alloc: Global, mut reading: Reading) -> Result<Statements, Memory>
    requires { IsWhole reading }
    ensures { (above : List Line) → IsRead above reading → IfOk result (λ s. Say above s.model s.names s.statements) }
{
    close(&mut reading)?;
    let Reading {
        model,
        names,
        statements,
        ..
    } = reading;
    Ok(Statements {
        model,
        names: names.into_items(alloc)?,
        statements,
    })
}

/// What a BLIF text says, line by line, or its first fault of a line: the first joined line that has
/// one, and of the kinds of fault that this line has the first. Want of memory may come at any time;
/// its line is 0. The table of the names hashes by `seed`.
pub fn read_statements(alloc: Global, seed: HashSeed, bytes: &[u8]) -> Result<Statements, BlifFault>
    requires { length bytes.now ≤ 4000000000 }
    ensures read { IfOk result (StatementsOf bytes.now) }
    ensures fault { IfErr result (λ fault. (fault.kind ≡ kind.Memory) ⊎ LineBad bytes.now fault) }
{
    let reading = read_lines(alloc, seed, bytes)?;
    Ok(statements_of(alloc, reading)?)
}
