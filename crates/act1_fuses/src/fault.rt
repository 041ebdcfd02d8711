use thiserror::Error;

/// What is wrong with a line of an antifuse file. Where several of these hold of a line, it is the
/// first of them in this order.
#[derive(Clone, Copy, Debug, Drop, PartialEq, Eq, Error)]
pub enum FuseKind {
    /// It is no line of an antifuse file, or lacks its line feed.
    #[error("no line of an antifuse file")]
    Line,
    /// A line of this kind may not follow the line before, or a start or an antifuse isn't greater
    /// than the one before.
    #[error("line out of order")]
    Order,
    /// An antifuse is at no site of the device, or a start outside its rows and columns.
    #[error("no such site on the device")]
    Site,
    /// The device hasn't the pad, or a line before uses it.
    #[error("no free pad")]
    Pad,
    /// The file is of another device.
    #[error("file of another device")]
    Device,
    /// The text ends before the line `end`, or goes on after it.
    #[error("text doesn't end with `end`")]
    End,
    /// A name was given before: to an input for an input, to an output for an output, to an input or
    /// a latch for a latch, or to the clock.
    #[error("name given before")]
    Name,
    /// The call found no memory.
    #[error("out of memory")]
    Memory,
}

/// The first faulty line of an antifuse file.
#[derive(Clone, Copy, Debug, Drop, PartialEq, Eq, Error)]
#[error("line {line}: {kind}")]
pub struct FuseFault {
    /// The number of the line, from 1. Where the text is cut it is the line after the last. It says
    /// nothing at `Memory`.
    pub line: u32,
    /// What is wrong with it.
    pub kind: FuseKind,
}
