ghost use Rattle.std.specs.Prelude.{◌≡◌, ◌∷◌, ◌++◌, [], OnOk, OnErr};

use crate::calls::Calls;
use crate::sink::{Sink, SinkFault};
use act1_base::Memory;
use std::alloc::Global;

/// A place to print in memory. Its calls of `put` are counted from 1, and those that `fail` lists
/// fail.
#[derive(Debug, Drop)]
pub struct MemorySink {
    bytes: Vec<u8>,
    calls: Calls,
    faults: u64,
    unprinted: u64,
}

impl MemorySink {
    ghost use Rattle.std.specs.Prelude.{Some};
    ghost use Rattle.act1_outside.specs.Calls.{with_failing};
    ghost use Rattle.act1_outside.specs.MemorySink.{paper_of, calls_of};

    /// Nothing was printed, no call was made, none is to fail, and no fault is counted. It takes no
    /// memory.
    pub fn new(alloc: Global) -> MemorySink
        ensures paper { paper_of result ≡ record { printed = Some []; faults = 0; unprinted = 0 } }
        ensures calls { calls_of result ≡ record { made = 0; failing = [] } }
    {
        MemorySink {
            bytes: Vec::new(alloc),
            calls: Calls::new(alloc),
            faults: 0,
            unprinted: 0,
        }
    }

    /// Lists a call that is to fail, by its number. It then prints nothing. After `Memory` the list
    /// is as it was.
    pub fn fail(&mut self, call: u64) -> Result<(), Memory>
        ensures ok { OnOk result (calls_of self.new ≡ with_failing call (calls_of self.old)) }
        ensures err { OnErr result (calls_of self.new ≡ calls_of self.old) }
        ensures kept { paper_of self.new ≡ paper_of self.old }
    {
        self.calls.fail(call)
    }

    /// All bytes that were printed.
    pub fn bytes(&self) -> &[u8]
        ensures { (paper_of self.now).printed ≡ Some result.now }
    {
        self.bytes.as_slice()
    }
}

impl Sink for MemorySink {
    ghost use Rattle.std.specs.Prelude.{◌↔◌, IsTrue, IsErrOf};
    ghost use Rattle.act1_outside.specs.Outside.{Puts};
    ghost use Rattle.act1_outside.specs.Faults.{count_after};
    ghost use Rattle.act1_outside.specs.Calls.{one_more, next_fails};
    ghost use Rattle.act1_outside.specs.MemorySink.{paper_of, calls_of};

    ghost seen = { paper_of };

    /// Prints the bytes. It fails exactly where the call is listed, and at any error nothing was
    /// printed.
    fn put(&mut self, bytes: &[u8]) -> Result<(), SinkFault>
        ensures puts { Puts bytes.now (paper_of self.old) result (paper_of self.new) }
        ensures listed { IsErrOf result SinkFault.Failed ↔ IsTrue (next_fails (calls_of self.old)) }
        ensures err { OnErr result ((paper_of self.new).printed ≡ (paper_of self.old).printed) }
        ensures faults { (paper_of self.new).faults ≡
            count_after (next_fails (calls_of self.old)) (paper_of self.old).faults }
        ensures calls { calls_of self.new ≡ one_more (calls_of self.old) }
    {
        if self.calls.count() {
            self.faults = self.faults.saturating_add(1);
            return Err(SinkFault::Failed);
        }
        if self.bytes.extend_from_slice(bytes).is_err() {
            self.unprinted = self.unprinted.saturating_add(1);
            return Err(SinkFault::Memory);
        }
        Ok(())
    }
}
