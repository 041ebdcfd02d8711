use act1_base::{Items, Name};
use act1_blif::Blif;

/// What an output is, or what a latch takes: a constant, or a signal of the netlist.
#[derive(Clone, Copy, Debug, PartialEq, Eq)]
pub enum NetTerm {
    /// The constant 0.
    Zero,
    /// The constant 1.
    One,
    /// The signal of this number.
    Signal(u16),
}

/// A netlist whose outputs and latch inputs may be constants. They are read from `outputs` and `next`:
/// the outputs and the latch inputs inside `blif` aren't read.
#[derive(Debug, Drop)]
pub struct Net {
    /// The clock, the inputs, the latches and the nodes.
    pub blif: Blif,
    /// The names of the outputs, in order.
    pub names: Items<Name>,
    /// What each output is.
    pub outputs: Items<NetTerm>,
    /// What each latch takes at an edge of the clock.
    pub next: Items<NetTerm>,
}
