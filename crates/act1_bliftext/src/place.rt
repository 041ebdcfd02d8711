use crate::reading::Reading;
use smallvec::SmallVec;

/// How far a text is read: what its joined lines so far say, and the words of the one that has begun.
#[derive(Drop)]
pub struct Place<'a> {
    /// What the joined lines so far say.
    pub reading: Reading,
    /// The words so far of the joined line that has begun.
    pub words: SmallVec<&'a [u8], 16>,
    /// The number of its first line.
    pub first: u32,
    /// The number of the next line.
    pub number: u32,
}
