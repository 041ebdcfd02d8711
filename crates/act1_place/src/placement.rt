use act1_base::{Items, Memory};
use act1_circuit::Spot;
use std::alloc::{AllocError, AllocFailed};

/// Where the modules of a circuit stand, by their numbers.
#[derive(Debug, Drop)]
pub struct Placement {
    /// The spot of each module.
    pub spots: Items<Spot>,
}

/// Why a circuit has no placement.
#[derive(Clone, Copy, Debug, PartialEq, Eq)]
pub enum PlaceStop {
    /// The circuit has more inputs and outputs than the device has pads.
    Pads {
        /// How many inputs and outputs there are.
        needed: u32,
        /// How many pads there are.
        have: u32,
    },
    /// The circuit has more modules than the device has sites.
    Full {
        /// How many modules there are.
        needed: u32,
        /// How many sites there are.
        have: u32,
    },
    /// The call found no memory.
    Memory,
}

impl From<Memory> for PlaceStop {
    ghost use Rattle.std.specs.Prelude.{◌≡◌};
    ghost use Rattle.act1_place.specs.declared.placement.PlaceStop.TheVariants.{Memory as no_memory};

    ghost from_gives = { λ _ e. e ≡ no_memory };

    fn from(_: Memory) -> Self {
        PlaceStop::Memory
    }
}
