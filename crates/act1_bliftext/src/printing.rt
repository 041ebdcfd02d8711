ghost use Rattle.std.specs.Prelude.{◌≡◌, ◌++◌, OnOk};
ghost use Rattle.act1_base.specs.Words.{text_line};
ghost use Rattle.act1_bliftext.specs.Printing.{blif_fault_words, blif_kind_word};

use crate::fault::{BlifFault, BlifKind};
use act1_base::{Memory, add_number, add_word};

// The word of a kind of fault.
fn blif_kind_word(kind: BlifKind) -> &'static [u8]
    ensures { result.now ≡ blif_kind_word kind }
{
    match kind {
        BlifKind::Byte => b"Byte",
        BlifKind::Word => b"Word",
        BlifKind::Shape => b"Shape",
        BlifKind::Row => b"Row",
        BlifKind::Mixed => b"Mixed",
        BlifKind::LatchKind => b"LatchKind",
        BlifKind::Init => b"Init",
        BlifKind::After => b"After",
        BlifKind::Limit => b"Limit",
        BlifKind::Twice => b"Twice",
        BlifKind::Clocks => b"Clocks",
        BlifKind::Undriven => b"Undriven",
        BlifKind::ClockUsed => b"ClockUsed",
        BlifKind::Loop => b"Loop",
        BlifKind::Memory => b"Memory",
    }
}

/// Adds the line that is printed of a fault: `blif line LINE KIND`. The one error is `Memory`.
pub fn write_blif_fault(text: &mut Vec<u8>, fault: BlifFault) -> Result<(), Memory>
    ensures { OnOk result (text.new.items ≡ text.old.items ++ text_line (blif_fault_words fault)) }
{
    text.extend_from_slice(b"blif")?;
    add_word(text, b"line")?;
    add_number(text, u64::from(fault.line))?;
    add_word(text, blif_kind_word(fault.kind))?;
    text.push(b'\n')?;
    Ok(())
}
