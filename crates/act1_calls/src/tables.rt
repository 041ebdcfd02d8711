ghost use Rattle.std.specs.Prelude.{◌≤◌};

use crate::input::number;
use act1_logic::Table;
use act1_match::{PinChoice, match_module, ones_of};
use std::fmt::Write;

// Scatters a number over all bits.
fn scattered(number: u64) -> u64 {
    number.wrapping_mul(0x9E37_79B9_7F4A_7C15)
}

// The table of the pin that the three lowest bits name.
fn pin(bits: u64) -> u64 {
    match (bits % 8) as u8 {
        0 => ones_of(PinChoice::Zero),
        1 => ones_of(PinChoice::One),
        number => ones_of(PinChoice::Var(number - 2)),
    }
}

// The table of a 2-to-1 multiplexer: `high` where the select is 1, and `low` where it is 0.
fn chosen(select: u64, low: u64, high: u64) -> u64 {
    select & high | !select & low
}

// The table of a module whose eight pins are named by the 24 highest bits.
fn module_table(bits: u64) -> u64 {
    let a = chosen(pin(bits >> 40), pin(bits >> 43), pin(bits >> 46));
    let b = chosen(pin(bits >> 49), pin(bits >> 52), pin(bits >> 55));
    chosen(pin(bits >> 58) | pin(bits >> 61), a, b)
}

// Whether one module can be the table of six variables of this number: the table of a module where it is
// even, and scattered bits where it is odd.
fn is_made(number: u64) -> bool {
    let bits = scattered(number);
    let table = if number % 2 == 0 {
        module_table(bits)
    } else {
        bits
    };
    match_module(Table(table), 6).is_some()
}

/// The row `scattered N`.
pub fn scattered_row(words: &[&str], text: &mut String) -> Option<()> {
    let [count] = words else {
        return None;
    };
    let made = (0..number(count)?).filter(|table| is_made(*table)).count();
    writeln!(text, "{made}").ok()
}

// How many of the tables of so many variables one module can be.
fn count_of(vars: u8) -> usize
    requires { vars ≤ 4 }
{
    (0..1u64 << ((1u32 << vars) % 64))
        .filter(|table| match_module(Table(*table), vars).is_some())
        .count()
}

/// The row `count V`.
pub fn count_row(words: &[&str], text: &mut String) -> Option<()> {
    let [vars] = words else {
        return None;
    };
    let vars = number(vars)?;
    if vars > 4 {
        return None;
    }
    writeln!(text, "{}", count_of(vars as u8)).ok()
}
