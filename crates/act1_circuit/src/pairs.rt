ghost use Rattle.std.specs.Prelude.{◌≡◌};

use act1_base::{Items, Memory};

/// The two modules of a latch.
#[derive(Clone, Copy, Debug)]
pub struct Pair {
    /// The module that takes the latch's input.
    pub master: u16,
    /// The module that has the latch's value.
    pub slave: u16,
}

/// The pairs of a circuit, rising by slave, and its other modules, each after those that it reads.
#[derive(Debug, Drop)]
pub struct PairForm {
    /// The pairs.
    pub pairs: Items<Pair>,
    /// The other modules.
    pub order: Items<u16>,
}

/// Why a circuit isn't in pair form: the first of these faults that it has, in the order of the variants,
/// with the least module or output that has it. What pair form is is this project's own rule.
#[derive(Clone, Copy, Debug)]
pub enum FormFault {
    /// The clock is on a pin of this module, which is in no pair.
    Clocked(u16),
    /// The source of this output is the clock.
    ClockOut(u16),
    /// This module outside pairs depends on itself through modules outside pairs.
    Ring(u16),
    /// This module is a slave without a start, or has a start and is no slave.
    Start(u16),
    /// No memory was found.
    Memory,
}

impl From<Memory> for FormFault {
    ghost use Rattle.act1_circuit.specs.declared.pairs.FormFault.TheVariants as fault;

    ghost from_gives = { λ _ e. e ≡ fault.Memory };

    fn from(_: Memory) -> Self {
        FormFault::Memory
    }
}
