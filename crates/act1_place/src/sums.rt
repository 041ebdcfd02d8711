ghost use Rattle.std.specs.Prelude.{◌≡◌, ◌<◌, ◌≤◌, ◌+◌, ◌^◌, length, All, slice_index_or};
ghost use Rattle.act1_circuit.specs.declared.circuit.Spot.{Spot as ASpot};
ghost use Rattle.act1_place.specs.Kept.{net_sum, places, joins, kept_total};
ghost use Rattle.act1_place.specs.declared.net.Joins.{Joins as AJoins};

use crate::net::{Joins, Place};
use act1_circuit::Spot;

// The place of a net's element: its modules, then its pads.
fn place_at(net: &Joins, spots: &[Spot], at: usize) -> Place
    requires modules { All (λ m. m < length spots.now) net.now.modules }
    requires rows { All (λ (s : ASpot). s.row ≤ 31) spots.now }
    requires within { at < length net.now.modules + length net.now.pads }
    ensures { result ≡ slice_index_or (places spots.now net.now) at result }
{
    let modules = net.modules.as_slice();
    if at < modules.len() {
        let spot = spots[usize::from(modules[at])];
        Place {
            x: spot.column,
            y: 2 * spot.row + 1,
        }
    } else {
        net.pads.as_slice()[at - modules.len()]
    }
}

/// The half perimeter of a net.
pub(crate) fn half_perimeter(net: &Joins, spots: &[Spot]) -> u16
    requires modules { All (λ m. m < length spots.now) net.now.modules }
    requires rows { All (λ (s : ASpot). s.row ≤ 31) spots.now }
    requires few { length net.now.modules + length net.now.pads < 2 ^ 32 }
    ensures { result ≡ net_sum spots.now net.now }
{
    let count = net.modules.len() + net.pads.len();
    if count == 0 {
        return 0;
    }
    let first = place_at(net, spots, 0);
    let mut left = first.x;
    let mut right = first.x;
    let mut low = first.y;
    let mut high = first.y;
    for at in 1..count {
        let place = place_at(net, spots, at);
        left = left.min(place.x);
        right = right.max(place.x);
        low = low.min(place.y);
        high = high.max(place.y);
    }
    u16::from(right - left) + u16::from(high - low)
}

/// Whether the net joins the module.
pub(crate) fn joins(net: &Joins, module: u16) -> bool
    ensures { result ≡ joins «module» net.now }
{
    net.modules.as_slice().iter().any(|other| *other == module)
}

/// The sum of the half perimeters of all nets.
pub(crate) fn total_of(nets: &[Joins], spots: &[Spot]) -> u64
    requires modules { All (λ (n : AJoins). All (λ m. m < length spots.now) n.modules) nets.now }
    requires sizes { All (λ (n : AJoins). length n.modules + length n.pads < 2 ^ 32) nets.now }
    requires few { length nets.now < 2 ^ 32 }
    requires rows { All (λ (s : ASpot). s.row ≤ 31) spots.now }
    ensures { result ≡ kept_total nets.now spots.now }
{
    let mut total = 0;
    for net in nets {
        total += u64::from(half_perimeter(net, spots));
    }
    total
}
