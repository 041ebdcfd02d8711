ghost use Rattle.std.specs.Prelude.{◌≡◌};

use act1_base::Memory;

/// Why no log or no answer was read.
#[derive(Clone, Copy, Debug, Drop, PartialEq, Eq)]
pub enum LogFault {
    /// The bytes are no such text. The number is that of the first faulty line, from 1: the first that lacks its
    /// line feed or with which the lines up to it begin no such text, or the line after the last, where the text
    /// is cut.
    Line(u32),
    /// The call found no memory.
    Memory,
}

impl From<Memory> for LogFault {
    ghost use Rattle.act1_logtext.specs.declared.fault.LogFault.TheVariants as fault;

    ghost from_gives = { λ _ e. e ≡ fault.Memory };

    fn from(_: Memory) -> Self {
        LogFault::Memory
    }
}
