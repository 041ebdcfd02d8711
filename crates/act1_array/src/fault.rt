ghost use Rattle.std.specs.Prelude.{◌≡◌};

use act1_base::Memory;
use act1_circuit::{Source, Spot};

/// Why an array has no circuit: the first of the four conditions of a sound array that fails, in the
/// order of the variants, or no memory. Which arrays are sound is this project's own rule.
#[derive(Clone, Copy, Debug, Drop, PartialEq, Eq)]
pub enum ArrayFault {
    /// Two different sources are joined: the least such pair, in the order ground, power, clock,
    /// inputs, modules.
    Driven { first: Source, second: Source },
    /// The first pin of a used module that is joined to no source, by modules in site order.
    Floating { spot: Spot, pin: u8 },
    /// The first output, by its number, whose pad is joined to no source.
    Unfed { output: u16 },
    /// The first start that stands at an unused module.
    StartUnused { spot: Spot },
    /// No memory was found.
    Memory,
}

impl From<Memory> for ArrayFault {
    ghost use Rattle.act1_array.specs.declared.fault.ArrayFault.TheVariants as fault;

    ghost from_gives = { λ _ e. e ≡ fault.Memory };

    fn from(_: Memory) -> Self {
        ArrayFault::Memory
    }
}
