ghost use Rattle.std.specs.Prelude.{◌≡◌, ◌≤◌, length};
ghost use Rattle.act1_base.specs.Texts.{Gives};
ghost use Rattle.act1_fuses.specs.Reading.{fuse_rules};
ghost use Rattle.act1_fuses.specs.Reads.{FuseReads, ReadsAgain, IsFuseText};

use crate::fault::{FuseFault, FuseKind};
use crate::fuses::FuseFile;
use crate::reader::FuseReader;
use act1_base::{Format, HashSeed, Memory, Stop, TextFault, read_text};
use act1_device::{Device, devices_are_small};
use std::alloc::Global;

// The format of the antifuse files of a device.
#[derive(Drop)]
struct FuseFormat<'a> {
    alloc: Global,
    seed: HashSeed,
    device: &'a Device,
}

impl<'a> Format for FuseFormat<'a> {
    type State = FuseReader;

    type Kind = FuseKind;

    ghost rules = { λ format. fuse_rules format.device.now };

    ghost is_text = { λ format. IsFuseText format.device.now };

    fn start(&self) -> Result<FuseReader, Memory> {
        FuseReader::new(self.alloc, self.seed)
    }

    fn after(&self, reader: FuseReader, line: &[u8]) -> Result<FuseReader, Stop<FuseKind>> {
        reader.after(self.alloc, self.device, line)
    }

    fn unended(&self, reader: &FuseReader) -> FuseKind {
        if reader.has_ended() {
            FuseKind::End
        } else {
            FuseKind::Line
        }
    }

    fn end(&self, reader: &FuseReader) -> Option<FuseKind> {
        if reader.has_ended() {
            None
        } else {
            Some(FuseKind::End)
        }
    }
}

/// The antifuse file of a device that the bytes spell, or the first faulty line with the least kind
/// of what is wrong with it. The format is that of `write_fuses`, and the rules that a file keeps
/// for its device are these, which are this project's own:
///
/// - the names are names: 1 to 1,024 bytes from 0x21 to 0x7E without `#`, the last no backslash;
/// - no two inputs have one name, no two outputs, and no two of inputs and latches; none of these has
///   the clock's name;
/// - the device has each pad, and no two inputs and outputs are at one;
/// - starts are inside the device's rows and columns, have an init of 0 to 3, and rise by row and
///   column;
/// - each antifuse is at a site of the device, and they rise in the order of sites.
///
/// So `Ok` comes exactly for the text of a file that keeps the rules, with that file. What each fault
/// means is said at `FuseKind`; numbers of any length are of the form of a line, so one that is too
/// large is no fault of the line but of the site or pad. The line `end` is the last, and whatever
/// stands behind it is faulty as `End` alone. The one answer that is tied to no cause is `Memory`.
/// The tables of the names hash by `seed`.
pub fn read_fuses(
    alloc: Global,
    seed: HashSeed,
    device: &Device,
    bytes: &[u8],
) -> Result<FuseFile, FuseFault>
    requires { length bytes.now ≤ 4000000000 }
    ensures first { FuseReads device.now bytes.now result }
    ensures again { ReadsAgain device.now bytes.now result }
{
    devices_are_small();
    let format = FuseFormat {
        alloc,
        seed,
        device,
    };
    match read_text(&format, bytes) {
        Ok(reader) => Ok(reader.into_file()),
        Err(Stop::Fault(TextFault { line, kind })) => Err(FuseFault { line, kind }),
        Err(Stop::Memory) => Err(FuseFault {
            line: 0,
            kind: FuseKind::Memory,
        }),
    }
}
