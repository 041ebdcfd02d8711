ghost use Rattle.std.specs.Prelude.{◌≡◌};
ghost use Rattle.act1_outside.specs.declared.files.FileFault.TheVariants.{Memory};

use act1_base::Memory;
use std::alloc::{AllocError, AllocFailed, Global};
use thiserror::Error;

/// Why a call of `Files` didn't do what it was asked for.
#[derive(Clone, Copy, Debug, Drop, PartialEq, Eq, Error)]
pub enum FileFault {
    /// The file couldn't be read or written. It comes only where the count of such faults of that
    /// kind and name rose in this call.
    #[error("the file can't be read or written")]
    Failed,
    /// The file holds more bytes than were asked for. Only `read` answers it.
    #[error("the file is too long")]
    TooLong,
    /// The call found no memory.
    #[error("out of memory")]
    Memory,
}

impl From<Memory> for FileFault {
    ghost from_gives = { λ _ e. e ≡ Memory };

    fn from(_: Memory) -> Self {
        FileFault::Memory
    }
}

impl From<AllocError> for FileFault {
    ghost from_gives = { λ _ e. e ≡ Memory };

    fn from(_: AllocError) -> Self {
        FileFault::Memory
    }
}

impl<T: Drop> From<AllocFailed<T>> for FileFault {
    ghost from_gives = { λ _ e. e ≡ Memory };

    fn from(_: AllocFailed<T>) -> Self {
        FileFault::Memory
    }
}

/// Files by their names.
///
/// Each name has a count of failed reads and one of failed writes. They never fall, and a call
/// raises none but that of its own kind and name. A write that finds no memory is counted too, in one
/// count for all names, and no other call is. An object may tell what each name holds; if it
/// does, it goes on telling.
pub trait Files {
    ghost use Rattle.act1_outside.specs.Outside.{Shelf, Reads, Writes};

    /// What is seen of the files.
    ghost seen: { Self → Shelf };

    /// The whole content of a name, of at most `most` bytes. Whatever it answers, every name holds
    /// what it held. A name that isn't there is `Failed`, and one that holds more than `most` bytes
    /// is `TooLong`.
    fn read(&mut self, alloc: Global, name: &str, most: u64) -> Result<Vec<u8>, FileFault>
        ensures { Reads name.now most (seen self.old) result (seen self.new) };

    /// Puts the bytes in the place of the whole content of a name, which needn't be there before.
    /// After `Failed` and `Memory` the name may hold anything. Every other name holds what it held.
    /// It never answers `TooLong`.
    fn write(&mut self, name: &str, bytes: &[u8]) -> Result<(), FileFault>
        ensures { Writes name.now bytes.now (seen self.old) result (seen self.new) };
}
