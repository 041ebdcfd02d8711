ghost use Rattle.std.specs.Prelude.{◌≡◌};

use act1_base::Memory;

/// Why a log isn't accepted: the first cause in the order of the variants, or no memory.
#[derive(Clone, Copy, Debug, Drop, PartialEq, Eq)]
pub enum CheckFault {
    /// The step of this number, from 0, is the first that isn't accepted.
    Step(u32),
    /// All steps are accepted, but there is no last one without choices.
    Unfinished,
    /// No memory was found.
    Memory,
}

impl From<Memory> for CheckFault {
    ghost use Rattle.act1_refute.specs.declared.fault.CheckFault.TheVariants as fault;

    ghost from_gives = { λ _ e. e ≡ fault.Memory };

    fn from(_: Memory) -> Self {
        CheckFault::Memory
    }
}
