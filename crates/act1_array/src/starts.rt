ghost use Rattle.std.specs.Prelude.{◌≡◌, ◌≤◌, length, slice_get, Some, IfSome, IfNone, Contains};
ghost use Rattle.act1_array.specs.Gives.{AreUsed};
ghost use Rattle.act1_array.specs.PartSteps.{GivesStarts};

use crate::fault::ArrayFault;
use act1_base::{Items, Name};
use act1_circuit::{Spot, Start};
use act1_fuses::FuseFile;
use std::alloc::Global;

// The number of the module at a spot, or `None` where no used module is.
fn number_at(spots: &[Spot], spot: Spot) -> Option<usize>
    ensures some { IfSome result (λ m. slice_get spots.now m ≡ Some spot) }
    ensures none { IfNone result (¬ Contains spots.now spot) }
{
    spots.iter().position(|other| *other == spot)
}

/// The starts of an array whose used modules stand at these spots, in the order of the file. The
/// fault is `StartUnused` or `Memory`.
pub fn starts_of(alloc: Global, spots: &[Spot], file: &FuseFile) -> Result<Items<Start>, ArrayFault>
    requires few { length spots.now ≤ 65536 }
    requires used { AreUsed file.now.sites spots.now }
    ensures { GivesStarts file.now spots.now result }
{
    let mut starts = Items::new(alloc);
    for start in file.starts.as_slice() {
        match number_at(spots, start.spot) {
            Some(number) => {
                let name = Name::new(alloc, start.name.as_bytes())?;
                starts.push(Start {
                    module: number as u16,
                    init: start.init,
                    name,
                })?;
            }
            None => return Err(ArrayFault::StartUnused { spot: start.spot }),
        }
    }
    Ok(starts)
}
