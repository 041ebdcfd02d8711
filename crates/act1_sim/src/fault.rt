use act1_array::ArrayFault;
use act1_circuit::Spot;
use thiserror::Error;

/// Why an array isn't simulated: the first cause in the order of the variants, or no memory.
#[derive(Clone, Copy, Debug, Drop, PartialEq, Eq, Error)]
pub enum SimFault {
    /// The array has no circuit.
    #[error("the array isn't sound")]
    Array(ArrayFault),
    /// The line of this number, from 1, is the first that isn't one character `0` or `1` per input.
    #[error("vector line {0}")]
    Vector(u32),
    /// After a wave of this cycle, from 0, a firing would still change a bit; it is the first such
    /// wave, and the module at the spot is the least whose firing does.
    #[error("unsettled in cycle {cycle}")]
    Unsettled { cycle: u64, spot: Spot },
    /// No memory was found.
    #[error("out of memory")]
    Memory,
}
