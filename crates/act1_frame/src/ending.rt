use crate::word::Word;
use act1_base::Items;

/// A file that a command writes: its name and its whole content.
#[derive(Debug, Drop)]
pub struct FileText {
    /// The file's name.
    pub name: Word,
    /// What it holds afterwards.
    pub bytes: Items<u8>,
}

/// How a command ends, before anything is written or printed: all text is made by then.
#[derive(Debug, Drop)]
pub struct Ending {
    /// The status that is answered, unless a write or the print fails.
    pub status: u8,
    /// What is printed.
    pub text: Items<u8>,
    /// The file that is written first, if there is one.
    pub file: Option<FileText>,
}
