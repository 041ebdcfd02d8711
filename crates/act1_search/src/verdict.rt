ghost use Rattle.std.specs.Prelude.{◌≡◌};

use act1_base::{Items, Memory};
use act1_channel::Log;

/// How a search ends.
#[derive(Drop)]
pub enum Verdict {
    /// An assignment: a track for each connection.
    Assigned(Items<u16>),
    /// An accepted log, so that there is no assignment.
    Refuted(Log),
}

/// Why a search stops.
#[derive(Drop)]
pub enum SearchStop {
    /// It met so many conflicts, which is the budget.
    Spent {
        /// The number of conflicts.
        conflicts: u64,
    },
    /// No memory was found.
    Memory,
}

impl From<Memory> for SearchStop {
    ghost use Rattle.act1_search.specs.declared.verdict.SearchStop.TheVariants as stop;

    ghost from_gives = { λ _ e. e ≡ stop.Memory };

    fn from(_: Memory) -> Self {
        SearchStop::Memory
    }
}
