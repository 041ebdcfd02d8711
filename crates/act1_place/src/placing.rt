ghost use Rattle.std.specs.Prelude.{◌≡◌, length, All, OnOk, IfOk, IfErr};
ghost use Rattle.act1_circuit.specs.Range.{InRange};
ghost use Rattle.act1_plan.specs.Order.{AreSites};
ghost use Rattle.act1_place.specs.Gains.{IsInside, Tries, Settles, pairs_with};
ghost use Rattle.act1_place.specs.Passes.{pairs};
ghost use Rattle.act1_place.specs.Place.{Places, HasPads, HasSites, IsStop, IsLeft};

use crate::gains::Gains;
use crate::placement::{PlaceStop, Placement};
use crate::start::{sites_of, start_of};
use act1_base::{Items, Memory};
use act1_circuit::{Circuit, Spot};
use act1_device::{Device, devices_are_small};
use std::alloc::Global;

// Whether pads and sites are enough.
fn find_room(device: &Device, circuit: &Circuit) -> Result<(), PlaceStop>
    requires { InRange circuit.now }
    ensures room { OnOk result (HasPads device.now circuit.now × HasSites device.now circuit.now) }
    ensures stop { IfErr result (IsStop device.now circuit.now) }
{
    devices_are_small();
    let pads = (circuit.inputs.len() + circuit.outputs.len()) as u32;
    let have = device.pads.len() as u32;
    if pads > have {
        return Err(PlaceStop::Pads { needed: pads, have });
    }
    let modules = circuit.modules.len() as u32;
    let sites = u32::from(device.rows) * u32::from(device.columns);
    if modules > sites {
        return Err(PlaceStop::Full {
            needed: modules,
            have: sites,
        });
    }
    Ok(())
}

// Makes the exchanges of the pairs of this site with these, each where it lessens the sum, and answers whether any
// was made.
fn try_site(gains: &mut Gains, a: Spot, later: &[Spot]) -> bool
    requires first { IsInside gains.old.rows gains.old.columns a }
    requires others { All (IsInside gains.old.rows gains.old.columns) later.now }
    ensures { Tries gains.old gains.new result (pairs_with a later.now) }
{
    let mut changed = false;
    for b in later {
        if gains.gain(a, *b) > 0 {
            gains.exchange(a, *b);
            changed = true;
        }
    }
    changed
}

// Makes a pass over all pairs of the sites, and answers whether any exchange was made.
fn make_pass(gains: &mut Gains, sites: &[Spot]) -> bool
    requires { All (IsInside gains.old.rows gains.old.columns) sites.now }
    ensures { Tries gains.old gains.new result (pairs sites.now) }
{
    let mut changed = false;
    for (at, a) in sites.iter().enumerate() {
        changed |= try_site(gains, *a, &sites[at + 1..]);
    }
    changed
}

// Makes passes until one makes no exchange.
fn settle(gains: &mut Gains, sites: &[Spot])
    requires { All (IsInside gains.old.rows gains.old.columns) sites.now }
    ensures { Settles gains.old gains.new sites.now }
{
    let mut changed = true;
    while changed {
        changed = make_pass(gains, sites);
    }
}

// The placement from a start.
fn placed_from(
    alloc: Global,
    device: &Device,
    circuit: &Circuit,
    start: &[Spot],
) -> Result<Placement, Memory>
    requires range { InRange circuit.now }
    requires each { length start.now ≡ length circuit.now.modules }
    requires sites { AreSites device.now start.now }
    requires pads { HasPads device.now circuit.now }
    ensures { IfOk result (λ placement. IsLeft device.now circuit.now start.now placement) }
{
    let sites = sites_of(alloc, device.rows, device.columns)?;
    let mut gains = Gains::new(alloc, device, circuit, start)?;
    settle(&mut gains, sites.as_slice());
    Ok(Placement {
        spots: Items::from_slice(alloc, gains.spots())?,
    })
}

/// Where the modules of a circuit stand on a device: the spots that the passes leave from the seeded start, so that
/// they are one function of device, circuit and seed. The placement is stable: no exchange of the contents of two
/// sites, an empty one included, lessens the sum of the half perimeters of the nets; and its sum is at most that of
/// the seeded start. Input i has pad i, and output o the pad with the number of inputs plus o.
///
/// The seeded start: the sites are listed by row and then column, s of them. `Pcg32::new(seed, 0)` gives words. For
/// i from s - 1 down to 1 the entries i and w modulo (i + 1) change places, w the next word. Module m starts at
/// entry m. A pass goes over all pairs of sites, the first before the second by row and then column, rising by the
/// first and then by the second, and exchanges their contents where that lessens the sum. The first pass that makes
/// no exchange is the last. The rules are this project's own.
///
/// Errors, in this order: `Pads` exactly where inputs plus outputs exceed the pads, `Full` exactly where the modules
/// exceed the sites, `Memory`.
pub fn place(
    alloc: Global,
    device: &Device,
    circuit: &Circuit,
    seed: u64,
) -> Result<Placement, PlaceStop>
    requires { InRange circuit.now }
    ensures { Places device.now circuit.now seed result }
{
    find_room(device, circuit)?;
    let start = start_of(
        alloc,
        device.rows,
        device.columns,
        circuit.modules.len(),
        seed,
    )?;
    Ok(placed_from(alloc, device, circuit, start.as_slice())?)
}
