ghost use Rattle.std.specs.Prelude.{◌≡◌, ◌<◌, ◌≤◌, ◌^◌, length, All};
ghost use Rattle.act1_place.specs.Ends.{IsChange, has, number_of};

use crate::ends::{Change, Ends};
use crate::reaches::half_with;
use act1_circuit::Spot;

// Whether the number is one of these.
fn has(numbers: &[u32], number: u32) -> bool
    ensures { result ≡ has numbers.now number }
{
    numbers.iter().any(|other| *other == number)
}

// The half perimeter that is kept.
fn sum_of(ends: Ends) -> u16
    ensures { result ≡ ends.sum }
{
    ends.sum
}

/// What the half perimeters of the nets of a module that aren't among the others add up to, now and with the module at
/// another spot.
pub(crate) fn change_of(
    ends: &[Ends],
    listed: &[u32],
    others: &[u32],
    module: u16,
    to: Spot,
) -> Change
    requires within { All (λ i. i < length ends.now) listed.now }
    requires few { length listed.now < 2 ^ 32 }
    requires row { to.row ≤ 31 }
    ensures { IsChange ends.now listed.now others.now «module» to result }
{
    let mut change = Change {
        before: 0,
        after: 0,
    };
    for number in listed {
        if !has(others, *number) {
            let ends = ends[*number as usize];
            change.before += u64::from(sum_of(ends));
            change.after += u64::from(half_with(ends, module, to));
        }
    }
    change
}

/// The module's number, if there is one.
pub(crate) fn number_of(module: Option<u16>) -> u16
    ensures { result ≡ number_of «module» }
{
    match module {
        Some(module) => module,
        None => 0,
    }
}
