ghost use Rattle.std.specs.Prelude.{◌≡◌, [], OnOk, OnErr};

use act1_base::{Items, Memory};
use std::alloc::Global;

/// The calls of an object in memory: how many were made, and the numbers of those that are to
/// fail. Calls are counted from 1, and the count stops at the greatest `u64`.
#[derive(Debug, Drop)]
pub struct Calls {
    /// How many calls were made.
    pub made: u64,
    /// The numbers of the calls that are to fail, in any order.
    pub failing: Items<u64>,
}

impl Calls {
    ghost use Rattle.act1_outside.specs.Calls.{next_fails, one_more, with_failing};

    /// No call was made and none is to fail. It takes no memory.
    pub fn new(alloc: Global) -> Calls
        ensures { result ≡ record { made = 0; failing = [] } }
    {
        Calls {
            made: 0,
            failing: Items::new(alloc),
        }
    }

    /// Lists a call that is to fail. After `Memory` nothing has changed.
    pub fn fail(&mut self, call: u64) -> Result<(), Memory>
        ensures ok { OnOk result (self.new ≡ with_failing call self.old) }
        ensures err { OnErr result (self.new ≡ self.old) }
    {
        self.failing.push(call)
    }

    /// Counts a call, and tells whether it is to fail.
    pub fn count(&mut self) -> bool
        ensures fails { result ≡ next_fails self.old }
        ensures counted { self.new ≡ one_more self.old }
    {
        self.made = self.made.saturating_add(1);
        self.failing.as_slice().contains(&self.made)
    }
}
