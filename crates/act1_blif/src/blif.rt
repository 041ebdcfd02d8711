ghost use Rattle.std.specs.Prelude.{IsTrue};
ghost use Rattle.act1_blif.specs.Rules.{is_blif, HasLevels};

use act1_base::{Items, Name};
use act1_logic::Cover;

/// A rising-edge latch of the one clock. An `init` of 0 or 1 is the value that it starts with; 2
/// (don't care) and 3 (unknown) leave the start free.
#[derive(Debug, Drop)]
pub struct Latch {
    /// The name of its output.
    pub name: Name,
    /// The signal at its input.
    pub input: u16,
    /// Its declared start: 0, 1, 2 (don't care) or 3 (unknown).
    pub init: u8,
}

/// A `.names`: a function of some signals.
#[derive(Debug, Drop)]
pub struct Node {
    /// The name of its output.
    pub name: Name,
    /// The signals at its inputs, in order.
    pub inputs: Items<u16>,
    /// Its function of them.
    pub cover: Cover,
}

/// A netlist. Signals are numbered from 0: the inputs, then the latches, then the nodes. The clock
/// is no signal. `outputs` has the signal of each output, in order.
///
/// The names of the signals and of the clock differ, and are at most 65,535. They and the model's name
/// are names by the rule for names. Signal numbers are in range, each init is 0 to 3, the outputs
/// differ, each cover has one input per input of its node, and no node depends on itself through nodes
/// alone.
#[derive(Debug, Drop)]
pub struct Blif {
    /// The model's name.
    pub model: Name,
    /// The clock's name, if it has one.
    pub clock: Option<Name>,
    /// The names of the inputs.
    pub inputs: Items<Name>,
    /// The latches.
    pub latches: Items<Latch>,
    /// The nodes.
    pub nodes: Items<Node>,
    /// The signals of the outputs.
    pub outputs: Items<u16>,
    pub ghost valid: { IsTrue (is_blif model clock inputs latches nodes outputs) },
    pub ghost acyclic: { ∥ HasLevels inputs latches nodes ∥₁ },
}
