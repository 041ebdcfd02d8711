ghost use Rattle.std.specs.Prelude.{◌≡◌, ◌++◌, OnOk};
ghost use Rattle.act1_base.specs.Words.{text_line};
ghost use Rattle.act1_fuses.specs.FaultWords.{kind_word, fuse_fault_words};

use crate::fault::{FuseFault, FuseKind};
use act1_base::{Memory, add_number, add_word};

// How a kind of refusal is printed.
fn kind_word(kind: FuseKind) -> &'static [u8]
    ensures { result.now ≡ kind_word kind }
{
    match kind {
        FuseKind::Line => b"Line",
        FuseKind::Order => b"Order",
        FuseKind::Site => b"Site",
        FuseKind::Pad => b"Pad",
        FuseKind::Device => b"Device",
        FuseKind::End => b"End",
        FuseKind::Name => b"Name",
        FuseKind::Memory => b"Memory",
    }
}

/// Adds the printed line of a refusal: `fuses line LINE KIND`. The one error is `Memory`, where no
/// memory is left for the text.
pub fn write_fuse_fault(text: &mut Vec<u8>, fault: FuseFault) -> Result<(), Memory>
    ensures { OnOk result (text.new.items ≡ text.old.items ++ text_line (fuse_fault_words fault)) }
{
    text.extend_from_slice(b"fuses")?;
    add_word(text, b"line")?;
    add_number(text, u64::from(fault.line))?;
    add_word(text, kind_word(fault.kind))?;
    text.push(b'\n')?;
    Ok(())
}
