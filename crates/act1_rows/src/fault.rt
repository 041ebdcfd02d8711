use act1_base::Memory;
use std::alloc::{AllocError, AllocFailed};
use std::fmt;

/// Why rows can't be played.
#[derive(Debug, Drop)]
pub enum Fault {
    /// There is no memory.
    Memory,
    /// A line isn't of the form of any line.
    Form,
    /// A number isn't one, or names a line that the file hasn't.
    Number,
    /// A `%` has no two digits behind it.
    Escape,
    /// A file of the data folder can't be read.
    Data,
    /// There is no file of this name, or no last file.
    File,
    /// The rows can't be printed.
    Print,
}

impl fmt::Display for Fault {
    fn fmt<W: fmt::Write>(&self, f: &mut fmt::Formatter<W>) -> fmt::Result {
        let text = match self {
            Fault::Memory => "no memory",
            Fault::Form => "no line of rows",
            Fault::Number => "no such number",
            Fault::Escape => "no byte behind a percent sign",
            Fault::Data => "a file that can't be read",
            Fault::File => "no such file in the row",
            Fault::Print => "the rows can't be printed",
        };
        f.write_str(text)
    }
}

impl From<AllocError> for Fault {
    fn from(_: AllocError) -> Fault {
        Fault::Memory
    }
}

impl<T: Drop> From<AllocFailed<T>> for Fault {
    fn from(_: AllocFailed<T>) -> Fault {
        Fault::Memory
    }
}

impl From<Memory> for Fault {
    fn from(_: Memory) -> Fault {
        Fault::Memory
    }
}

/// Where rows stop, and why.
#[derive(Debug, Drop)]
pub struct Stop {
    /// The number of the line, from 1, or 0 where it is no fault of a line.
    pub line: u64,
    /// Why.
    pub fault: Fault,
}

impl From<Fault> for Stop {
    fn from(fault: Fault) -> Stop {
        Stop { line: 0, fault }
    }
}

impl From<AllocError> for Stop {
    fn from(_: AllocError) -> Stop {
        Stop::from(Fault::Memory)
    }
}

impl<T: Drop> From<AllocFailed<T>> for Stop {
    fn from(_: AllocFailed<T>) -> Stop {
        Stop::from(Fault::Memory)
    }
}
