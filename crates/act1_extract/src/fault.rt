ghost use Rattle.std.specs.Prelude.{◌≡◌};

use act1_array::ArrayFault;
use act1_base::Memory;
use act1_circuit::Spot;

/// Which rule of pair form a module breaks. What pair form is is this project's own rule.
#[derive(Clone, Copy, Debug, Drop, PartialEq, Eq)]
pub enum FormKind {
    /// The clock is on a pin of the module, which is in no pair.
    Clocked,
    /// The module is outside pairs and depends on itself through modules outside pairs.
    Ring,
    /// The module is a slave without a start, or has a start and is no slave.
    Start,
}

/// Why an array has no extracted netlist: the first of these that holds. First its array isn't sound;
/// then its circuit isn't in pair form, in the order `Clocked`, `ClockOut`, `Ring` and `Start`; then a
/// name clashes. Which arrays are extracted is this project's own rule.
#[derive(Clone, Copy, Debug, Drop)]
pub enum ExtractFault {
    /// The array has no circuit. The inner fault is never `Memory`.
    Array(ArrayFault),
    /// The least module that breaks this rule of pair form, by where it stands.
    Form { fault: FormKind, spot: Spot },
    /// The source of this output is the clock: the least such output.
    ClockOut(u16),
    /// This output has the name of an input or a latch and another source: the least such output.
    Clash(u16),
    /// No memory was found.
    Memory,
}

impl From<Memory> for ExtractFault {
    ghost use Rattle.act1_extract.specs.declared.fault.ExtractFault.TheVariants as fault;

    ghost from_gives = { λ _ e. e ≡ fault.Memory };

    fn from(_: Memory) -> Self {
        ExtractFault::Memory
    }
}
