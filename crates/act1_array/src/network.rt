ghost use Rattle.std.specs.Prelude.{◌≡◌, ◌≢◌, ◌≤◌, length, All, AllPairs, IfOk};
ghost use Rattle.act1_device.specs.declared.device.Device.{Device};
ghost use Rattle.act1_device.specs.Sites.{IsSite};
ghost use Rattle.act1_fuses.specs.declared.fuses.FuseFile.{FuseFile};
ghost use Rattle.act1_fuses.specs.declared.fuses.Port.{Port};
ghost use Rattle.act1_fuses.specs.Array.{IsSource};
ghost use Rattle.act1_array.specs.NetworkSteps.{Feeds, GivesPair, IsNetworkOf, IsReady};

use crate::classes::Classes;
use crate::owners::{Owners, Pair};
use crate::spots::used_spots;
use act1_base::{Items, Memory};
use act1_circuit::{Source, Spot};
use act1_device::{Device, Wire};
use act1_fuses::FuseFile;
use std::alloc::Global;

/// What drives the wires of an array: the spots of its modules, the classes of joined wires, and the
/// least source of each class.
#[derive(Drop)]
pub struct Network {
    spots: Items<Spot>,
    classes: Classes,
    owners: Owners,
}

impl Network {
    /// The network of an array whose antifuses stand at sites of the device.
    pub fn of_array(alloc: Global, device: &Device, file: &FuseFile) -> Result<Network, Memory>
        requires sites { All (IsSite device.now) file.now.sites }
        requires few { length file.now.ins ≤ 65536 }
        ensures network { IfOk result (IsNetworkOf device.now file.now) }
        ensures few { IfOk result (λ network. length network.spots ≤ 2048) }
    {
        let sites = file.sites.as_slice();
        let spots = used_spots(alloc, device, sites)?;
        let classes = Classes::of_sites(alloc, device, sites)?;
        let owners = Owners::of_sources(alloc, file, spots.as_slice(), &classes)?;
        Ok(Network {
            spots,
            classes,
            owners,
        })
    }

    /// The spots of the used modules, in their order.
    pub fn spots(&self) -> &[Spot]
        ensures { result.now ≡ self.now.spots }
    {
        self.spots.as_slice()
    }

    /// The spots of the used modules, kept.
    pub fn into_spots(self) -> Items<Spot>
        ensures { result ≡ self.spots }
    {
        let Network { spots, .. } = self;
        spots
    }

    /// The least pair of different sources that are joined, or `None` where no two are.
    pub fn driven_pair(&self) -> Option<Pair>
        ensures { (dev : Device) (f : FuseFile) → IsNetworkOf dev f self.now → AllPairs (λ (a b : Port). a.pad ≢ b.pad) f.ins → GivesPair dev f self.now.spots result }
    {
        self.owners.pair()
    }

    /// The source that is joined to a wire that is no source itself, or `None` where none is. Where
    /// several are, it is the least.
    pub fn source_of(&self, wire: Wire) -> Option<Source>
        requires { IsReady self.now }
        ensures { (dev : Device) (f : FuseFile) → IsNetworkOf dev f self.now → ¬ IsSource f wire → Feeds dev f self.now.spots wire result }
    {
        self.owners.source_of(&self.classes, wire)
    }
}
