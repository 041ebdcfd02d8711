ghost use Rattle.std.specs.Prelude.{◌≡◌};
ghost use Rattle.act1_outside.specs.declared.helpers.HelperFault.TheVariants.{Memory};

use act1_base::{Items, Memory};
use std::alloc::{AllocError, AllocFailed, Global};
use thiserror::Error;

/// Why a call of `Helpers` gave no ticket or no answer.
#[derive(Clone, Copy, Debug, Drop, PartialEq, Eq, Error)]
pub enum HelperFault {
    /// The helper couldn't be started, or gave no answer. It comes only where the count of faults
    /// rose in this call.
    #[error("the helper can't be started or gives no answer")]
    Failed,
    /// The call found no memory.
    #[error("out of memory")]
    Memory,
}

impl From<Memory> for HelperFault {
    ghost from_gives = { λ _ e. e ≡ Memory };

    fn from(_: Memory) -> Self {
        HelperFault::Memory
    }
}

impl From<AllocError> for HelperFault {
    ghost from_gives = { λ _ e. e ≡ Memory };

    fn from(_: AllocError) -> Self {
        HelperFault::Memory
    }
}

impl<T: Drop> From<AllocFailed<T>> for HelperFault {
    ghost from_gives = { λ _ e. e ≡ Memory };

    fn from(_: AllocFailed<T>) -> Self {
        HelperFault::Memory
    }
}

/// An entry of a story, which tells what helpers were asked for and what they answered. A call
/// that found no memory has none.
#[derive(Debug, Drop)]
pub enum Entry {
    /// A helper was started.
    Started {
        /// The name of the program.
        program: Items<u8>,
        /// The text of the job.
        job: Items<u8>,
        /// The ticket by which its answer is asked for.
        ticket: u64,
    },
    /// A helper was asked for, and couldn't be started.
    Refused {
        /// The name of the program.
        program: Items<u8>,
        /// The text of the job.
        job: Items<u8>,
    },
    /// A helper answered.
    Answered {
        /// The ticket of its start.
        ticket: u64,
        /// The answer.
        bytes: Items<u8>,
    },
    /// A helper that was started gave no answer.
    Lost {
        /// The ticket of its start.
        ticket: u64,
    },
}

/// Helpers that do jobs side by side with the program.
///
/// A started helper has a ticket, which is open until its answer was asked for. There is a count of
/// faults, which never falls. An object may tell the story of its calls; if it does, it goes on
/// telling.
pub trait Helpers {
    ghost use Rattle.std.specs.Prelude.{◌<◌, All, Contains};
    ghost use Rattle.act1_outside.specs.Outside.{Bench, Starts, Finishes};

    /// What is seen of the helpers.
    ghost seen: { Self → Bench };

    /// Starts a helper, and answers its ticket: the next one, which is open from then on. After
    /// `Failed` and `Memory` the tickets are as before. No helper has the greatest `u64` as its
    /// ticket: where that is the next one, a start fails.
    fn start(&mut self, program: &str, job: &[u8]) -> Result<u64, HelperFault>
        ensures { Starts program.now job.now (seen self.old) result (seen self.new) };

    /// The answer of the helper that has this open ticket, of at most 268,435,456 bytes. Whatever
    /// it answers, the ticket is closed.
    fn finish(&mut self, alloc: Global, ticket: u64) -> Result<Vec<u8>, HelperFault>
        requires { Contains (seen self.old).open_tickets ticket }
        ensures { Finishes ticket (seen self.old) result (seen self.new) };

    /// The next ticket is above all open ones.
    ghost next_above: { (helpers : Self) →
        All (λ ticket. ticket < (seen helpers).next) (seen helpers).open_tickets };
}
