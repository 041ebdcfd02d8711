ghost use Rattle.std.specs.Prelude.{◌≡◌, not, slice_get};
ghost use Rattle.std.specs.List.{list_any};
ghost use Rattle.std.specs.Option.{option_map};
ghost use Rattle.act1_net.specs.Net.{has_literal};
ghost use Rattle.act1_net.specs.Gates.{constant, is_copy, is_copy_mark, settled};
ghost use Rattle.act1_net.specs.declared.net.NetTerm.TheVariants as term;
ghost use Rattle.act1_logic.specs.Rows.{is_literal};

use crate::gate::Gate;
use crate::net::NetTerm;
use act1_logic::{Mark, Row};

// The term of a constant.
fn constant(value: bool) -> NetTerm
    ensures { result ≡ constant value }
{
    if value { NetTerm::One } else { NetTerm::Zero }
}

// Whether a row asks something of an input.
fn has_literal(row: &Row) -> bool
    ensures { result ≡ has_literal row.now }
{
    for mark in row.marks.as_slice() {
        match mark {
            Mark::Zero => return true,
            Mark::One => return true,
            Mark::Dash => {}
        }
    }
    false
}

// Whether some row asks nothing.
fn has_plain_row(rows: &[Row]) -> bool
    ensures { result ≡ list_any (λ row. not (has_literal row)) rows.now }
{
    for row in rows {
        if !has_literal(row) {
            return true;
        }
    }
    false
}

// Whether the one mark of the one row makes a copy.
fn is_copy_mark(output: bool, mark: Mark) -> bool
    ensures { result ≡ is_copy_mark output mark }
{
    match mark {
        Mark::Zero => !output,
        Mark::One => output,
        Mark::Dash => false,
    }
}

// Whether the rows make a function of its one input.
fn is_copy(output: bool, rows: &[Row]) -> bool
    ensures { result ≡ is_copy output rows.now }
{
    match rows {
        [row] => match row.marks.as_slice() {
            [mark] => is_copy_mark(output, *mark),
            _ => false,
        },
        _ => false,
    }
}

// The term of the first signal, if there is one.
fn first_term(signals: &[u16]) -> Option<NetTerm>
    ensures { result ≡ option_map term.Signal (slice_get signals.now 0) }
{
    match signals.first() {
        Some(signal) => Some(NetTerm::Signal(*signal)),
        None => None,
    }
}

/// The constant or the signal that a function of signals is, where its rows show it: the other value
/// than its output where it has no rows, its output where a row asks nothing, and its one input where
/// its one row makes it a copy.
pub fn settled(gate: &Gate) -> Option<NetTerm>
    ensures { result ≡ settled gate.now }
{
    let rows = gate.rows.as_slice();
    if rows.is_empty() {
        return Some(constant(!gate.output));
    }
    if has_plain_row(rows) {
        return Some(constant(gate.output));
    }
    if is_copy(gate.output, rows) {
        return first_term(gate.inputs.as_slice());
    }
    None
}
