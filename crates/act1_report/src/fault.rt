ghost use Rattle.std.specs.Prelude.{◌≡◌};

use act1_base::Memory;

/// Why a text isn't a report that is accepted: the first cause in the order of the variants, or no memory.
#[derive(Clone, Copy, Debug, Drop, PartialEq, Eq)]
pub enum ReportFault {
    /// The bytes are no text of a report. The number is that of the first faulty line, from 1: the first that lacks
    /// its line feed or with which the lines up to it begin no such text, or the line after the last, where the
    /// text is cut.
    Line(u32),
    /// The plan isn't legal for the device, or has no routes, or there is no such channel.
    Plan,
    /// The step of this number, from 0, is the first that isn't accepted.
    Step(u32),
    /// All steps are accepted, but there is no last one without choices.
    Unfinished,
    /// No memory was found.
    Memory,
}

impl From<Memory> for ReportFault {
    ghost use Rattle.act1_report.specs.declared.fault.ReportFault.TheVariants as fault;

    ghost from_gives = { λ _ e. e ≡ fault.Memory };

    fn from(_: Memory) -> Self {
        ReportFault::Memory
    }
}
