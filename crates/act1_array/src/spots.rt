ghost use Rattle.std.specs.Prelude.{◌≡◌, ◌<◌, ◌≤◌, ◌+◌, ◌*◌, length, All, IfOk};
ghost use Rattle.act1_device.specs.Sites.{IsSite};
ghost use Rattle.act1_array.specs.Gives.{AreUsed};
ghost use Rattle.act1_array.specs.SpotSteps.{AreMarks, IsInside, IsNear, spot_of, with_use};

use act1_base::{Items, Memory};
use act1_circuit::Spot;
use act1_device::{Device, Line, Site, devices_are_small};
use std::alloc::Global;

// As many spots as a device of the most rows and columns has.
const PLACES: usize = 2048;

// The spot of a place: 64 places to a row.
fn spot_of(place: usize) -> Spot
    requires { place < 2048 }
    ensures { result ≡ spot_of place }
{
    Spot {
        row: (place / 64) as u8,
        column: (place % 64) as u8,
    }
}

// A site whose line is an output marks the place of its module.
fn mark_use(marks: &mut Vec<bool>, site: Site)
    requires all { length marks.old.items ≡ 2048 }
    requires inside { IsInside site }
    ensures { marks.new.items ≡ with_use site marks.old.items }
{
    if let Site::Cross {
        line: Line::Out { row, column },
        ..
    } = site
    {
        marks[usize::from(row) * 64 + usize::from(column)] = true;
    }
}

// For each place whether the module there is used.
fn marks_of(alloc: Global, sites: &[Site]) -> Result<Vec<bool>, Memory>
    requires { All IsInside sites.now }
    ensures { IfOk result (λ marks. AreMarks sites.now marks.items) }
{
    let mut marks = vec![in alloc; false; PLACES]?;
    for site in sites {
        mark_use(&mut marks, *site);
    }
    Ok(marks)
}

/// The spots of the used modules, rising by row and then by column.
pub fn used_spots(alloc: Global, device: &Device, sites: &[Site]) -> Result<Items<Spot>, Memory>
    requires { All (IsSite device.now) sites.now }
    ensures used { IfOk result (AreUsed sites.now) }
    ensures few { IfOk result (λ spots. length spots ≤ 2048) }
{
    devices_are_small();
    let marks = marks_of(alloc, sites)?;
    let mut spots = Items::new(alloc);
    for place in 0..marks.len() {
        if marks[place] {
            spots.push(spot_of(place))?;
        }
    }
    Ok(spots)
}
