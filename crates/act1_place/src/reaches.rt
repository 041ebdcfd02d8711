ghost use Rattle.std.specs.Prelude.{◌≡◌, ◌<◌, ◌≤◌, ◌+◌, ◌^◌, ◌++◌, List, length, All, IfOk};
ghost use Rattle.act1_circuit.specs.declared.circuit.Spot.{Spot as ASpot};
ghost use Rattle.act1_place.specs.Ends.{IsReachWith, AreEndsWith, AreEnds, AreAllEnds, AreRenewed, AreSeen, Element, module_elements, pad_elements, least_but, span_with, half_with};
ghost use Rattle.act1_place.specs.declared.net.Joins.{Joins as AJoins};
ghost use Rattle.act1_place.specs.Gains.{AreNets};

use crate::ends::{Ends, Reach};
use crate::net::{Joins, Place};
use crate::sums::half_perimeter;
use act1_base::{Items, Memory};
use act1_circuit::Spot;
use std::alloc::Global;

// One element more, of this module and with this number.
fn reach_with(reach: Reach, module: u16, number: u8) -> Reach
    ensures { IsReachWith reach «module» number result }
{
    if module == reach.module {
        Reach {
            least: reach.least.min(number),
            module,
            rest: reach.rest,
        }
    } else if number < reach.least {
        Reach {
            least: number,
            module,
            rest: reach.least,
        }
    } else {
        Reach {
            least: reach.least,
            module: reach.module,
            rest: reach.rest.min(number),
        }
    }
}

// One place more, of this module.
fn ends_with(ends: Ends, module: u16, place: Place) -> Ends
    ensures { AreEndsWith ends «module» place result }
{
    Ends {
        left: reach_with(ends.left, module, place.x),
        right: reach_with(ends.right, module, 255 - place.x),
        low: reach_with(ends.low, module, place.y),
        high: reach_with(ends.high, module, 255 - place.y),
        sum: ends.sum,
    }
}

// The least of what was seen, where one module's is left out.
fn least_but(reach: Reach, module: u16) -> u8
    ensures { result ≡ least_but reach «module» }
{
    if module == reach.module {
        reach.rest
    } else {
        reach.least
    }
}

// From the least to the greatest, with this module at this number.
fn span_with(back: Reach, forth: Reach, module: u16, number: u8) -> u8
    ensures { result ≡ span_with back forth «module» number }
{
    let greatest = (255 - least_but(forth, module)).max(number);
    let least = least_but(back, module).min(number);
    greatest - least
}

/// The half perimeter of a net with one of its modules at this spot.
pub(crate) fn half_with(ends: Ends, module: u16, to: Spot) -> u16
    requires { to.row ≤ 31 }
    ensures { result ≡ half_with ends «module» to }
{
    let width = span_with(ends.left, ends.right, module, to.column);
    let height = span_with(ends.low, ends.high, module, 2 * to.row + 1);
    u16::from(width) + u16::from(height)
}

// What the modules of a net reach.
fn add_modules(ends: Ends, modules: &[u16], spots: &[Spot]) -> Ends
    requires modules { All (λ m. m < length spots.now) modules.now }
    requires rows { All (λ (s : ASpot). s.row ≤ 31) spots.now }
    ensures { (seen : List Element) → AreSeen seen ends → AreSeen (seen ++ module_elements spots.now modules.now) result }
{
    let mut all = ends;
    for module in modules {
        let spot = spots[usize::from(*module)];
        let place = Place {
            x: spot.column,
            y: 2 * spot.row + 1,
        };
        all = ends_with(all, *module, place);
    }
    all
}

// What the pads of a net reach.
fn add_pads(ends: Ends, pads: &[Place]) -> Ends
    ensures { (seen : List Element) → AreSeen seen ends → AreSeen (seen ++ pad_elements pads.now) result }
{
    let mut all = ends;
    for pad in pads {
        all = ends_with(all, 65535, *pad);
    }
    all
}

/// What is kept of a net.
pub(crate) fn ends_of(net: &Joins, spots: &[Spot]) -> Ends
    requires modules { All (λ m. m < length spots.now) net.now.modules }
    requires rows { All (λ (s : ASpot). s.row ≤ 31) spots.now }
    requires few { length net.now.modules + length net.now.pads < 2 ^ 32 }
    ensures { AreEnds spots.now net.now result }
{
    let none = Reach {
        least: 255,
        module: 65535,
        rest: 255,
    };
    let start = Ends {
        left: none,
        right: none,
        low: none,
        high: none,
        sum: 0,
    };
    let some = add_modules(start, net.modules.as_slice(), spots);
    let all = add_pads(some, net.pads.as_slice());
    Ends {
        left: all.left,
        right: all.right,
        low: all.low,
        high: all.high,
        sum: half_perimeter(net, spots),
    }
}

/// What is kept of all nets.
pub(crate) fn all_ends(alloc: Global, nets: &[Joins], spots: &[Spot]) -> Result<Items<Ends>, Memory>
    requires nets { AreNets (length spots.now) nets.now }
    requires rows { All (λ (s : ASpot). s.row ≤ 31) spots.now }
    ensures { IfOk result (λ ends. AreAllEnds nets.now spots.now ends) }
{
    let mut all = Vec::with_capacity(alloc, nets.len())?;
    for net in nets {
        all.push(ends_of(net, spots))?;
    }
    Ok(Items::from_vec(all))
}

/// Renews what is kept of the listed nets.
pub(crate) fn renew(ends: &mut Items<Ends>, nets: &[Joins], listed: &[u32], spots: &[Spot])
    requires nets { AreNets (length spots.now) nets.now }
    requires rows { All (λ (s : ASpot). s.row ≤ 31) spots.now }
    requires listed { All (λ i. i < length nets.now) listed.now }
    requires each { length ends.old ≡ length nets.now }
    ensures { AreRenewed nets.now spots.now listed.now ends.old ends.new }
{
    for number in listed {
        let number = *number as usize;
        ends.set(number, ends_of(&nets[number], spots));
    }
}
