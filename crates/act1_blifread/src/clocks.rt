ghost use Rattle.std.specs.Prelude.{◌≡◌, slice_get};
ghost use Rattle.std.specs.List.{list_any};
ghost use Rattle.act1_blifread.specs.Parts.{clock_names, clock_of, is_clock};
ghost use Rattle.act1_blifread.specs.Faults.{is_second_clock, is_clock_used};
ghost use Rattle.act1_blifread.specs.NetlistSteps.{first_line};

use act1_bliftext::{NumberedStatement, Statement};

// The first clock name of a statement.
fn first_clock(statement: &Statement) -> Option<u16>
    ensures { result ≡ slice_get (clock_names statement.now) 0 }
{
    match statement {
        Statement::Clock(names) => names.get(0).copied(),
        Statement::Latch { control, .. } => *control,
        _ => None,
    }
}

/// The clock: the first name in `.clock` or as the control of a latch.
pub fn clock_of(statements: &[NumberedStatement]) -> Option<u16>
    ensures { result ≡ clock_of statements.now }
{
    for numbered in statements {
        if let Some(clock) = first_clock(&numbered.statement) {
            return Some(clock);
        }
    }
    None
}

/// Whether a name is the clock's.
pub fn is_clock(clock: Option<u16>, name: u16) -> bool
    ensures { result ≡ is_clock clock name }
{
    match clock {
        Some(clock) => clock == name,
        None => false,
    }
}

// Whether a statement brings a clock name other than the first.
fn is_second_clock(clock: Option<u16>, statement: &Statement) -> bool
    ensures { result ≡ is_second_clock clock statement.now }
{
    match statement {
        Statement::Clock(names) => names.as_slice().iter().any(|n| !is_clock(clock, *n)),
        Statement::Latch { control, .. } => match control {
            Some(control) => !is_clock(clock, *control),
            None => false,
        },
        _ => false,
    }
}

/// The line of the first statement that brings a second clock name.
pub fn second_clock_line(clock: Option<u16>, statements: &[NumberedStatement]) -> Option<u32>
    ensures { result ≡ first_line (is_second_clock clock) statements.now }
{
    statements
        .iter()
        .find(|numbered| is_second_clock(clock, &numbered.statement))
        .map(|numbered| numbered.line)
}

/// Whether the clock is one of the names.
pub fn has_clock(clock: Option<u16>, names: &[u16]) -> bool
    ensures { result ≡ list_any (is_clock clock) names.now }
{
    names.iter().any(|n| is_clock(clock, *n))
}

// Whether a statement has the clock where no clock may stand.
fn is_clock_used(clock: Option<u16>, statement: &Statement) -> bool
    ensures { result ≡ is_clock_used clock statement.now }
{
    match statement {
        Statement::Outputs(names) => has_clock(clock, names.as_slice()),
        Statement::Names { inputs, output, .. } => {
            is_clock(clock, *output) || has_clock(clock, inputs.as_slice())
        }
        Statement::Latch { input, output, .. } => {
            is_clock(clock, *input) || is_clock(clock, *output)
        }
        _ => false,
    }
}

/// The line of the first statement that has the clock where no clock may stand.
pub fn clock_used_line(clock: Option<u16>, statements: &[NumberedStatement]) -> Option<u32>
    ensures { result ≡ first_line (is_clock_used clock) statements.now }
{
    statements
        .iter()
        .find(|numbered| is_clock_used(clock, &numbered.statement))
        .map(|numbered| numbered.line)
}
