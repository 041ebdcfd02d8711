ghost use Rattle.std.specs.Prelude.{◌≡◌, [], None};
ghost use Rattle.std.proofs.Common.{rules};
ghost use Rattle.act1_outside.specs.Faults.{next_count};

use crate::helpers::{HelperFault, Helpers};
use std::alloc::Global;

/// No helpers: each start fails and is counted, no ticket is ever open, and no story is told.
#[derive(Debug, Drop)]
pub struct NoHelpers {
    faults: u64,
}

// The count with one fault more; it stops at the greatest `u64`.
fn one_more(faults: u64) -> u64
    ensures { result ≡ next_count faults }
{
    faults.saturating_add(1)
}

impl NoHelpers {
    ghost use Rattle.act1_outside.specs.NoHelpers.{bench_of};

    /// No fault is counted, and the next ticket is 0. It takes no memory.
    pub fn new() -> NoHelpers
        ensures { bench_of result ≡ record { open_tickets = []; next = 0; faults = 0; story = None } }
    {
        NoHelpers { faults: 0 }
    }
}

impl Helpers for NoHelpers {
    ghost use Rattle.std.specs.Prelude.{IsErrOf};
    ghost use Rattle.act1_outside.specs.Outside.{Starts, Finishes};
    ghost use Rattle.act1_outside.specs.NoHelpers.{bench_of};

    ghost seen = { bench_of };

    /// Always `Failed`, and counted.
    fn start(&mut self, program: &str, job: &[u8]) -> Result<u64, HelperFault>
        ensures starts { Starts program.now job.now (bench_of self.old) result (bench_of self.new) }
        ensures fails { IsErrOf result HelperFault.Failed }
        ensures faults { (bench_of self.new).faults ≡ next_count (bench_of self.old).faults }
    {
        self.faults = one_more(self.faults);
        Err(HelperFault::Failed)
    }

    /// Always `Failed`, and counted. No caller of the trait's method comes here, since no ticket is
    /// ever open.
    fn finish(&mut self, alloc: Global, ticket: u64) -> Result<Vec<u8>, HelperFault>
        ensures finishes { Finishes ticket (bench_of self.old) result (bench_of self.new) }
        ensures fails { IsErrOf result HelperFault.Failed }
        ensures faults { (bench_of self.new).faults ≡ next_count (bench_of self.old).faults }
    {
        self.faults = one_more(self.faults);
        Err(HelperFault::Failed)
    }

    ghost next_above = { Prim.search rules };
}
