ghost use Rattle.std.specs.Prelude.{◌≡◌};

use act1_base::{Items, Memory};
use act1_search::Verdict;

/// What helpers were good for.
#[derive(Clone, Copy, Debug, PartialEq, Eq)]
pub struct Tally {
    /// How many problems helpers were asked for.
    pub asked: u32,
    /// For how many of them a usable answer came.
    pub taken: u32,
    /// How many starts and finishes failed.
    pub faults: u32,
}

/// The verdicts of channels, and what helpers were good for.
#[derive(Drop)]
pub struct Outcome {
    /// The verdicts in the order of the channels, up to the first refuted one.
    pub answers: Items<Verdict>,
    /// The three numbers.
    pub tally: Tally,
}

/// Why there are no verdicts.
#[derive(Drop)]
pub enum FarmStop {
    /// The search of a channel for which no usable answer came met as many conflicts as it may.
    Spent {
        /// The channel.
        channel: u16,
        /// How many conflicts: the budget.
        conflicts: u64,
        /// What helpers were good for.
        tally: Tally,
    },
    /// No memory was found.
    Memory,
}

impl From<Memory> for FarmStop {
    ghost use Rattle.act1_farm.specs.declared.outcome.FarmStop.TheVariants as stop;

    ghost from_gives = { λ _ e. e ≡ stop.Memory };

    fn from(_: Memory) -> Self {
        FarmStop::Memory
    }
}
