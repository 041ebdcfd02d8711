ghost use Rattle.std.specs.Prelude.{ℕ, List, ◌≡◌, ◌≤◌, ◌∷◌, length, map, Option};
ghost use Rattle.std.specs.Option.{option_map};
ghost use Rattle.std.specs.Borrow.{Bor};
ghost use Rattle.act1_bliftext.specs.Forms.{control_names};
ghost use Rattle.act1_bliftext.specs.LatchSteps.{LatchGives, control_word, StartGives, IsLatch};
ghost use Rattle.act1_bliftext.specs.NumberingSteps.{AddsNames};

use crate::fault::BlifKind;
use crate::forms::{init_value, is};
use crate::names::Names;
use crate::statement::Statement;
use act1_base::{Items, Stop};
use std::alloc::Global;

// The control that a word names, unless it is `NIL`.
#[tactic(auto, unfolding(crate::specs::Forms::control_names))]
fn control_of<'a>(control: &'a [u8]) -> Option<&'a [u8]>
    ensures { control_word (option_map (λ w. w.now) result) ≡ control_names control.entry.now }
{
    if is(control, b"NIL") {
        None
    } else {
        Some(control)
    }
}

// The init that a word gives, beside the control.
fn start_of<'a>(control: Option<&'a [u8]>, init: &[u8]) -> Result<(Option<&'a [u8]>, u8), BlifKind>
    ensures { StartGives control.entry init.now result }
{
    match init_value(init) {
        Some(init) => Ok((control, init)),
        None => Err(BlifKind::Init),
    }
}

/// The control and the init by the words behind the input and output of a latch.
pub fn latch_rest<'a>(rest: &[&'a [u8]]) -> Result<(Option<&'a [u8]>, u8), BlifKind>
    ensures { LatchGives (map (λ w. w.now) rest.entry.now) result }
{
    match rest {
        [] => Ok((None, 3)),
        [init] => start_of(None, init),
        [kind, control] => {
            if !is(kind, b"re") {
                return Err(BlifKind::LatchKind);
            }
            Ok((control_of(control), 3))
        }
        [kind, control, init] => {
            if !is(kind, b"re") {
                return Err(BlifKind::LatchKind);
            }
            start_of(control_of(control), init)
        }
        _ => Err(BlifKind::Shape),
    }
}

/// The numbers of the names of a latch.
pub fn add_latch(
    names: &mut Names,
    alloc: Global,
    input: &[u8],
    output: &[u8],
    control: Option<&[u8]>,
) -> Result<Items<u16>, Stop<BlifKind>>
    ensures { AddsNames names.old (input.now ∷ output.now ∷ control_word (option_map (λ w. w.now) control.entry)) names.new result }
{
    match control {
        Some(control) => names.add(alloc, &[input, output, control]),
        None => names.add(alloc, &[input, output]),
    }
}

/// What a latch with these numbers of names says.
pub fn latch_statement(numbers: &[u16], init: u8) -> Statement
    requires some { 2 ≤ length numbers.now }
    requires few { length numbers.now ≤ 3 }
    ensures { IsLatch numbers.now init result }
{
    match numbers {
        [input, output] => Statement::Latch {
            input: *input,
            output: *output,
            control: None,
            init,
        },
        [input, output, control] => Statement::Latch {
            input: *input,
            output: *output,
            control: Some(*control),
            init,
        },
        _ => unreachable!(),
    }
}
