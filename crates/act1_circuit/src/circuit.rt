use act1_base::{Items, Name};

/// What drives a pin or an output: a constant, the clock, an input, or a module, by number.
#[derive(Clone, Copy, Debug, PartialEq, Eq)]
pub enum Source {
    /// The constant 0, which is ground.
    Zero,
    /// The constant 1, which is power.
    One,
    /// The clock.
    Clock,
    /// The input of this number.
    Input(u16),
    /// The module of this number.
    Module(u16),
}

/// An output of a circuit and what drives it.
#[derive(Debug, Drop)]
pub struct Output {
    /// Its name.
    pub name: Name,
    /// What drives it.
    pub source: Source,
}

/// The module that holds a latch's value, with the latch's name and declared init (0 to 3).
#[derive(Debug, Drop)]
pub struct Start {
    /// The module, by number.
    pub module: u16,
    /// The latch's declared init.
    pub init: u8,
    /// The latch's name.
    pub name: Name,
}

/// A circuit of logic modules. `modules` has the sources of each module's pins, in the order A0,
/// A1, SA, B0, B1, SB, S0, S1. The clock has a name or none.
#[derive(Debug, Drop)]
pub struct Circuit {
    /// The clock's name, if it has one.
    pub clock: Option<Name>,
    /// The names of the inputs.
    pub inputs: Items<Name>,
    /// The sources of each module's pins.
    pub modules: Items<[Source; 8]>,
    /// The outputs.
    pub outputs: Items<Output>,
    /// The modules that hold latches.
    pub starts: Items<Start>,
}

/// Where a module stands.
#[derive(Clone, Copy, Debug, PartialEq, Eq)]
pub struct Spot {
    /// The row, from 0.
    pub row: u8,
    /// The column, from 0.
    pub column: u8,
}

/// A circuit whose modules have spots: one per module, rising by row and then by column.
#[derive(Debug, Drop)]
pub struct Placed {
    /// The circuit.
    pub circuit: Circuit,
    /// Where each module stands.
    pub spots: Items<Spot>,
}
