ghost use Rattle.std.specs.Prelude.{◌≡◌};
ghost use Rattle.act1_outside.specs.declared.sink.SinkFault.TheVariants.{Memory};

use act1_base::Memory;
use std::alloc::{AllocError, AllocFailed};
use thiserror::Error;

/// Why a `put` didn't print all its bytes.
#[derive(Clone, Copy, Debug, Drop, PartialEq, Eq, Error)]
pub enum SinkFault {
    /// The bytes couldn't be printed. It comes only where the count of faults rose in this call.
    #[error("the text can't be printed")]
    Failed,
    /// The call found no memory.
    #[error("out of memory")]
    Memory,
}

impl From<Memory> for SinkFault {
    ghost from_gives = { λ _ e. e ≡ Memory };

    fn from(_: Memory) -> Self {
        SinkFault::Memory
    }
}

impl From<AllocError> for SinkFault {
    ghost from_gives = { λ _ e. e ≡ Memory };

    fn from(_: AllocError) -> Self {
        SinkFault::Memory
    }
}

impl<T: Drop> From<AllocFailed<T>> for SinkFault {
    ghost from_gives = { λ _ e. e ≡ Memory };

    fn from(_: AllocFailed<T>) -> Self {
        SinkFault::Memory
    }
}

/// A place to print.
///
/// It has a count of faults, which never falls, and one of puts that found no memory, which no other
/// put raises. An object may tell the bytes that were printed; if
/// it does, it goes on telling.
pub trait Sink {
    ghost use Rattle.act1_outside.specs.Outside.{Paper, Puts};

    /// What is seen of the print.
    ghost seen: { Self → Paper };

    /// Prints the bytes after those that were printed before. After `Failed` and `Memory` the first
    /// few of them were printed, perhaps none or all.
    fn put(&mut self, bytes: &[u8]) -> Result<(), SinkFault>
        ensures { Puts bytes.now (seen self.old) result (seen self.new) };
}
