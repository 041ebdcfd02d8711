ghost use Rattle.std.specs.Prelude.{IfOk, IfErr};
ghost use Rattle.act1_frame.specs.Reading.{WasRead, OnlyRead, wanted_of};
ghost use Rattle.act1_frame.specs.Stages.{ReadStops, OnStop};

use crate::endings::named_refusal;
use crate::stop::Stop;
use crate::word::Word;
use act1_outside::{FileFault, Files};
use std::alloc::Global;

/// The bytes under a name, of which at most `most` are wanted. The command ends where the read fails
/// (status 2) or the name holds more (status 16); `Memory` is the one other error.
pub fn read<F: Files>(alloc: Global, files: &mut F, name: &Word, most: u64) -> Result<Vec<u8>, Stop>
    ensures ok { IfOk result (λ bytes. WasRead (F.seen files.old) (wanted_of name.now most) bytes.items) }
    ensures err { IfErr result (OnStop (ReadStops (F.seen files.old) (F.seen files.new) (wanted_of name.now most))) }
    ensures files { OnlyRead (F.seen files.old) (F.seen files.new) }
{
    match files.read(alloc, name.as_str(), most) {
        Ok(bytes) => Ok(bytes),
        Err(FileFault::Failed) => Err(Stop::Ends(named_refusal(alloc, 2, b"read fault", name)?)),
        Err(FileFault::TooLong) => Err(Stop::Ends(named_refusal(alloc, 16, b"too long", name)?)),
        Err(FileFault::Memory) => Err(Stop::Memory),
    }
}
