/// The form of a line of a BLIF text, by its first word.
#[derive(Clone, Copy, Debug, PartialEq, Eq)]
pub enum Form {
    /// `.model`.
    Model,
    /// `.inputs`.
    Inputs,
    /// `.outputs`.
    Outputs,
    /// `.clock`.
    Clock,
    /// `.names`.
    Names,
    /// `.latch`.
    Latch,
    /// `.end`.
    End,
    /// Another word with a leading dot.
    Unknown,
    /// A word without a leading dot: a row.
    Row,
}
