use act1_base::Memory;
use std::alloc::AllocError;

/// Why a BLIF text is refused. The first nine are faults of a line, and a line that has several is
/// refused by the first of these; the next five are faults of the whole text, and come in this order
/// where no line has a fault. Want of memory may come at any time.
#[derive(Clone, Copy, Debug, PartialEq, Eq)]
pub enum BlifKind {
    /// A byte outside comments that is neither a blank nor 0x21 to 0x7E, or a word that ends in a
    /// backslash after joining.
    Byte,
    /// A first word with a leading dot that isn't known.
    Word,
    /// A wrong number of words after `.model`, `.names`, `.latch` or `.end`.
    Shape,
    /// A row that isn't of the form, or stands where no row may.
    Row,
    /// A row with another output character than the first of its `.names`.
    Mixed,
    /// A latch of another type than `re`.
    LatchKind,
    /// An init other than 0, 1, 2 and 3.
    Init,
    /// `.model` that isn't the first line with words, or words after `.end`.
    After,
    /// More than 64 inputs of a `.names`, a name of more than 1,024 bytes, or the line that brings the
    /// 65,536th different name.
    Limit,
    /// A name given a second time.
    Twice,
    /// A second clock.
    Clocks,
    /// A name that is used and that nothing drives.
    Undriven,
    /// The clock used as a signal.
    ClockUsed,
    /// A `.names` whose output depends on itself through `.names` alone.
    Loop,
    /// There was no memory. It is the one kind that says nothing of the text.
    Memory,
}

/// The first fault of a BLIF text.
#[derive(Clone, Copy, Debug, PartialEq, Eq)]
pub struct BlifFault {
    /// The number of the line, from 1: of a joined line that of its first line. It is 0 for `Memory`.
    pub line: u32,
    /// What is wrong.
    pub kind: BlifKind,
}

impl From<AllocError> for BlifFault {
    ghost use Rattle.std.specs.Prelude.{◌≡◌};
    ghost use Rattle.act1_bliftext.specs.declared.fault.BlifKind.TheVariants.{Memory};

    ghost from_gives = { λ _ e. e.kind ≡ Memory };

    fn from(_: AllocError) -> Self {
        BlifFault {
            line: 0,
            kind: BlifKind::Memory,
        }
    }
}

impl From<Memory> for BlifFault {
    ghost use Rattle.std.specs.Prelude.{◌≡◌};
    ghost use Rattle.act1_bliftext.specs.declared.fault.BlifKind.TheVariants as kind;

    ghost from_gives = { λ _ e. e.kind ≡ kind.Memory };

    fn from(_: Memory) -> Self {
        BlifFault {
            line: 0,
            kind: BlifKind::Memory,
        }
    }
}
