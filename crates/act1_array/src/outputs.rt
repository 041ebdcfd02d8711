ghost use Rattle.std.specs.Prelude.{◌≤◌, length, All};
ghost use Rattle.act1_device.specs.declared.device.Device.{Device};
ghost use Rattle.act1_fuses.specs.declared.fuses.Port.{Port};
ghost use Rattle.act1_fuses.specs.Array.{IsSource, pad_wire};
ghost use Rattle.act1_array.specs.NetworkSteps.{IsNetworkOf, IsReady};
ghost use Rattle.act1_array.specs.PartSteps.{GivesOutputs};

use crate::fault::ArrayFault;
use crate::network::Network;
use act1_base::{Items, Name};
use act1_circuit::Output;
use act1_device::{Line, Wire};
use act1_fuses::FuseFile;
use std::alloc::Global;

/// The outputs of an array, in the order of the file. The fault is `Unfed` or `Memory`.
pub fn outputs_of(
    alloc: Global,
    network: &Network,
    file: &FuseFile,
) -> Result<Items<Output>, ArrayFault>
    requires ready { IsReady network.now }
    requires few { length file.now.outs ≤ 65536 }
    ensures { (dev : Device) → IsNetworkOf dev file.now network.now → All (λ (port : Port). ¬ IsSource file.now (pad_wire port.pad)) file.now.outs → GivesOutputs dev file.now network.now.spots result }
{
    let mut outputs = Items::new(alloc);
    for (number, port) in file.outs.as_slice().iter().enumerate() {
        let wire = Wire::Vertical(Line::Pad { pad: port.pad });
        match network.source_of(wire) {
            Some(source) => {
                let name = Name::new(alloc, port.name.as_bytes())?;
                outputs.push(Output { name, source })?;
            }
            None => {
                return Err(ArrayFault::Unfed {
                    output: number as u16,
                });
            }
        }
    }
    Ok(outputs)
}
