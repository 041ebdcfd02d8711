ghost use Rattle.std.specs.Prelude.{◌≡◌, ◌+◌, ℕ, List, OnOk, OnErr};
ghost use Rattle.act1_outside.specs.Faults.{Rose, OnlyAt};
ghost use Rattle.act1_outside.specs.Failures.{failures_of};

use act1_base::{Items, Memory, Name};
use std::alloc::Global;

/// The names of the failed calls of one kind, each as often as a call with it failed. They are the
/// count of faults of an object that meets `Files`.
#[derive(Drop)]
pub struct Failures {
    alloc: Global,
    names: Items<Name>,
}

impl Failures {
    /// No call failed. It takes no memory.
    pub fn new(alloc: Global) -> Failures
        ensures { (name : List ℕ) → failures_of result name ≡ 0 }
    {
        Failures {
            alloc,
            names: Items::new(alloc),
        }
    }

    /// Counts a failed call of a name. After `Memory` nothing is counted.
    #[tactic(auto, using(crate::proofs::Times::noted))]
    pub fn note(&mut self, name: &str) -> Result<(), Memory>
        ensures one { OnOk result (failures_of self.new name.now ≡ failures_of self.old name.now + 1) }
        ensures rose { OnOk result (Rose (failures_of self.old name.now) (failures_of self.new name.now)) }
        ensures at { OnOk result (OnlyAt name.now (failures_of self.old) (failures_of self.new)) }
        ensures err { OnErr result (self.new ≡ self.old) }
    {
        self.names.push(Name::new(self.alloc, name.as_bytes())?)
    }
}
