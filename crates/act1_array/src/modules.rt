ghost use Rattle.act1_device.specs.declared.device.Device.{Device};
ghost use Rattle.act1_fuses.specs.declared.fuses.FuseFile.{FuseFile};
ghost use Rattle.act1_array.specs.NetworkSteps.{IsNetworkOf, IsReady};
ghost use Rattle.act1_array.specs.PartSteps.{GivesModules, GivesPins};

use crate::fault::ArrayFault;
use crate::network::Network;
use act1_base::Items;
use act1_circuit::{Source, Spot};
use act1_device::{Line, Wire};
use std::alloc::Global;

// The sources of the pins of a used module, or the first pin that is joined to none.
fn pins_of(network: &Network, spot: Spot) -> Result<[Source; 8], u8>
    requires { IsReady network.now }
    ensures { (dev : Device) (f : FuseFile) → IsNetworkOf dev f network.now → GivesPins dev f network.now.spots spot result }
{
    let Spot { row, column } = spot;
    let mut sources = [Source::Zero; 8];
    for pin in 0..8u8 {
        let wire = Wire::Vertical(Line::Pin { row, column, pin });
        match network.source_of(wire) {
            Some(source) => sources[usize::from(pin)] = source,
            None => return Err(pin),
        }
    }
    Ok(sources)
}

/// The sources of the pins of all used modules. The fault is `Floating` or `Memory`.
pub fn modules_of(alloc: Global, network: &Network) -> Result<Items<[Source; 8]>, ArrayFault>
    requires { IsReady network.now }
    ensures { (dev : Device) (f : FuseFile) → IsNetworkOf dev f network.now → GivesModules dev f network.now.spots result }
{
    let mut modules = Items::new(alloc);
    for spot in network.spots() {
        match pins_of(network, *spot) {
            Ok(sources) => modules.push(sources)?,
            Err(pin) => return Err(ArrayFault::Floating { spot: *spot, pin }),
        }
    }
    Ok(modules)
}
