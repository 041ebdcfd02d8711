ghost use Rattle.std.specs.Prelude.{◌≡◌, ◌≢◌, ◌<◌, ◌≤◌, ◌+◌, ◌*◌, ◌^◌, length, All, AllPairs, IfOk, IfSome, pos, ◌-ℤ◌};
ghost use Rattle.act1_circuit.specs.declared.circuit.Spot.{Spot as ASpot};
ghost use Rattle.act1_circuit.specs.Range.{InRange};
ghost use Rattle.act1_plan.specs.Order.{AreSites};
ghost use Rattle.act1_place.specs.Gains.{IsInside, AreAt, AreItsNets, listed_at, put};
ghost use Rattle.act1_place.specs.Kept.{all_joins, kept_total, Occupies};
ghost use Rattle.act1_place.specs.Passes.{exchange};
ghost use Rattle.act1_place.specs.Place.{HasPads};

use crate::changes::{change_of, number_of};
use crate::ends::Ends;
use crate::net::Joins;
use crate::nets::{nets_of, touching_of};
use crate::reaches::{all_ends, renew};
use crate::sums::total_of;
use act1_base::{Items, Memory};
use act1_circuit::{Circuit, Spot};
use act1_device::{Device, devices_are_small};
use std::alloc::Global;
use std::marker::Model;

/// The sum of the half perimeters of a circuit's nets, kept while modules change places. After any exchanges
/// each answer is the one from scratch at the present spots.
#[derive(Drop)]
pub struct Gains {
    rows: u8,
    columns: u8,
    nets: Items<Joins>,
    // the numbers of the nets that join each module
    touching: Items<Items<u32>>,
    spots: Items<Spot>,
    // which module stands at each site, by row and then column
    at: Items<Option<u16>>,
    // how far each net reaches, renewed where an exchange moves one of its modules
    ends: Items<Ends>,
}

impl Model for Gains {
    ghost use Rattle.act1_place.specs.Ends.{AreAllEnds};
    ghost use Rattle.act1_place.specs.Gains.{Kept, IsKept};

    ghost Value = { Kept };

    ghost view = { λ g. record { rows = g.rows; columns = g.columns; nets = g.nets; spots = g.spots } };

    ghost invariant = { λ g. IsKept g.rows g.columns g.nets g.touching g.spots g.at × AreAllEnds g.nets g.spots g.ends };
}

// The number of a site among those of rows of so many columns.
fn site_number(columns: u8, site: Spot) -> usize
    ensures { result ≡ site.row * columns + site.column }
{
    usize::from(site.row) * usize::from(columns) + usize::from(site.column)
}

// Which module stands at each site.
fn modules_at(
    alloc: Global,
    rows: u8,
    columns: u8,
    spots: &[Spot],
) -> Result<Items<Option<u16>>, Memory>
    requires few_rows { rows ≤ 32 }
    requires few_columns { columns ≤ 64 }
    requires few { length spots.now ≤ 65535 }
    requires inside { All (IsInside rows columns) spots.now }
    requires apart { AllPairs (λ (s t : ASpot). s ≢ t) spots.now }
    ensures { IfOk result (λ at. AreAt rows columns spots.now at) }
{
    let sites = usize::from(rows) * usize::from(columns);
    let mut at = vec![in alloc; None; sites]?;
    for (module, spot) in spots.iter().enumerate() {
        at[site_number(columns, *spot)] = Some(module as u16);
    }
    Ok(Items::from_vec(at))
}

// Puts the module, if there is one, at another spot.
fn put(spots: &mut Items<Spot>, module: Option<u16>, to: Spot)
    requires { IfSome «module» (λ m. m < length spots.old) }
    ensures { spots.new ≡ put «module» to spots.old }
{
    if let Some(module) = module {
        spots.set(usize::from(module), to);
    }
}

// The list of the module, if there is one.
fn listed_at(touching: &[Items<u32>], module: Option<u16>) -> &[u32]
    requires { IfSome «module» (λ m. m < length touching.now) }
    ensures { result.now ≡ listed_at touching.now «module» }
{
    match module {
        Some(module) => touching[usize::from(module)].as_slice(),
        None => &[],
    }
}

impl Gains {
    // Which module stands at the site.
    fn module_at(&self, site: Spot) -> Option<u16>
        requires { IsInside self.now.rows self.now.columns site }
        ensures occupies { Occupies self.now.spots site result }
        ensures there { IfSome result (λ m. m < length self.now.spots) }
    {
        self.at.as_slice()[site_number(self.columns, site)]
    }

    // The numbers of the nets that join the module, if there is one.
    fn nets_at(&self, module: Option<u16>) -> &[u32]
        requires { IfSome «module» (λ m. m < length self.now.spots) }
        ensures nets { AreItsNets self.now.nets result.now «module» }
        ensures short { length result.now ≤ 131070 }
    {
        listed_at(self.touching.as_slice(), module)
    }

    /// The sums of a circuit whose modules stand at these spots, one for each.
    ///
    /// Errors: `Memory`, where there is none.
    pub fn new(
        alloc: Global,
        device: &Device,
        circuit: &Circuit,
        spots: &[Spot],
    ) -> Result<Gains, Memory>
        requires range { InRange circuit.now }
        requires each { length spots.now ≡ length circuit.now.modules }
        requires sites { AreSites device.now spots.now }
        requires pads { HasPads device.now circuit.now }
        ensures { IfOk result (λ gains. gains ≡ record { rows = device.now.rows; columns = device.now.columns; nets = all_joins device.now circuit.now; spots = spots.now }) }
    {
        devices_are_small();
        let nets = nets_of(alloc, device, circuit)?;
        let touching = touching_of(alloc, nets.as_slice(), spots.len())?;
        let at = modules_at(alloc, device.rows, device.columns, spots)?;
        let ends = all_ends(alloc, nets.as_slice(), spots)?;
        Ok(Gains {
            rows: device.rows,
            columns: device.columns,
            nets,
            touching,
            spots: Items::from_slice(alloc, spots)?,
            at,
            ends,
        })
    }

    /// The sum of the half perimeters at the present spots. It takes no memory.
    pub fn total(&self) -> u64
        ensures { result ≡ kept_total self.now.nets self.now.spots }
    {
        total_of(self.nets.as_slice(), self.spots.as_slice())
    }

    /// The total now less the total after the exchange of the contents of both sites, of which either or both may be
    /// empty. It takes no memory.
    pub fn gain(&self, a: Spot, b: Spot) -> i64
        requires first { IsInside self.now.rows self.now.columns a }
        requires second { IsInside self.now.rows self.now.columns b }
        ensures { result ≡ pos (kept_total self.now.nets self.now.spots) -ℤ pos (kept_total self.now.nets (exchange a b self.now.spots)) }
    {
        let first = self.module_at(a);
        let second = self.module_at(b);
        let ours = self.nets_at(first);
        let theirs = self.nets_at(second);
        let ends = self.ends.as_slice();
        let one = change_of(ends, ours, theirs, number_of(first), b);
        let two = change_of(ends, theirs, ours, number_of(second), a);
        (one.before + two.before) as i64 - (one.after + two.after) as i64
    }

    /// Exchanges the contents of both sites. It takes no memory.
    pub fn exchange(&mut self, a: Spot, b: Spot)
        requires first { IsInside self.old.rows self.old.columns a }
        requires second { IsInside self.old.rows self.old.columns b }
        ensures { self.new ≡ record self.old { spots = exchange a b self.old.spots } }
    {
        let first = self.module_at(a);
        let second = self.module_at(b);
        self.at.set(site_number(self.columns, a), second);
        self.at.set(site_number(self.columns, b), first);
        put(&mut self.spots, first, b);
        put(&mut self.spots, second, a);
        let (nets, spots) = (self.nets.as_slice(), self.spots.as_slice());
        renew(
            &mut self.ends,
            nets,
            listed_at(self.touching.as_slice(), first),
            spots,
        );
        renew(
            &mut self.ends,
            nets,
            listed_at(self.touching.as_slice(), second),
            spots,
        );
    }

    /// Where the modules stand now. It takes no memory.
    pub fn spots(&self) -> &[Spot]
        ensures { result.now ≡ self.now.spots }
    {
        self.spots.as_slice()
    }
}
