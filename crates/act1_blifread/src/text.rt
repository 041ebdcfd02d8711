ghost use Rattle.std.specs.Prelude.{◌≢◌, ◌≤◌, length, IfOk, IfErr};
ghost use Rattle.act1_blifread.specs.Text.{BlifBad, BlifText};

use crate::whole::netlist_of;
use act1_base::HashSeed;
use act1_blif::Blif;
use act1_bliftext::{BlifFault, BlifKind, read_statements};
use std::alloc::Global;

/// Reads the netlist of a BLIF text of at most 4,000,000,000 bytes.
///
/// The fault is that of the first faulty line, the first of the kinds `Byte` to `Limit` where it has
/// several (`read_statements`); and where no line has one, the first of the kinds `Twice` to `Loop`,
/// at the first line that has it (`netlist_of`). `Memory` may come at any time. The table of the names hashes by `seed`.
///
/// The format is Berkeley's BLIF. The kinds of fault, their order and the limits are this project's
/// own.
pub fn read_blif(alloc: Global, seed: HashSeed, bytes: &[u8]) -> Result<Blif, BlifFault>
    requires { length bytes.now ≤ 4000000000 }
    ensures read { IfOk result (BlifText bytes.now) }
    ensures refused { IfErr result (λ fault. fault.kind ≢ BlifKind.Memory → BlifBad bytes.now fault.line fault.kind) }
{
    match read_statements(alloc, seed, bytes) {
        Ok(statements) => netlist_of(alloc, statements),
        Err(fault) => Err(fault),
    }
}
