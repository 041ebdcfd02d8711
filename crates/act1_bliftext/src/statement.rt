use act1_base::Items;
use act1_logic::Cover;

/// What a line of a BLIF text says, where names stand by their numbers: the names of a text are
/// numbered from 0 in the order in which they are first used.
#[derive(Debug, Drop)]
pub enum Statement {
    /// `.inputs`, with its names.
    Inputs(Items<u16>),
    /// `.outputs`, with its names.
    Outputs(Items<u16>),
    /// `.clock`, with its names.
    Clock(Items<u16>),
    /// `.names`, with the rows that follow it.
    Names {
        /// Its inputs, in order.
        inputs: Items<u16>,
        /// Its output.
        output: u16,
        /// Its function of the inputs.
        cover: Cover,
    },
    /// `.latch`.
    Latch {
        /// What it takes at each edge.
        input: u16,
        /// What it drives.
        output: u16,
        /// Its clock, if it names one; the control `NIL` names none.
        control: Option<u16>,
        /// Its declared start: 0, 1, 2 (don't care) or 3 (unknown, and where none is given).
        init: u8,
    },
}

/// A statement with the number of its line.
#[derive(Debug, Drop)]
pub struct NumberedStatement {
    /// The number of the first line of its joined line, from 1.
    pub line: u32,
    /// What it says.
    pub statement: Statement,
}
