ghost use Rattle.std.specs.Prelude.{◌≡◌};

use act1_base::Memory;

/// Why a cover has no diagram here.
#[derive(Clone, Copy, Debug, Drop, PartialEq, Eq)]
pub enum DdFault {
    /// The diagram of this number of first rows has more forks than the limit, and that of each lesser
    /// number hasn't. A fork that is a single input counts. The limit is this project's own rule.
    Limit { rows: usize },
    /// No memory was found.
    Memory,
}

impl From<Memory> for DdFault {
    ghost use Rattle.act1_dd.specs.declared.fault.DdFault.TheVariants as fault;

    ghost from_gives = { λ _ e. e ≡ fault.Memory };

    fn from(_: Memory) -> Self {
        DdFault::Memory
    }
}
