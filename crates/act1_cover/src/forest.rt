use act1_base::Items;

/// What a part of a fork is: a constant, an input of the cover, or a fork of the same forest.
#[derive(Clone, Copy, Debug, PartialEq, Eq)]
pub enum Term {
    /// The constant 0.
    Zero,
    /// The constant 1.
    One,
    /// The input of this number, from 0.
    Var(u8),
    /// The fork of this number, from 0.
    Fork(u32),
}

/// A fork: the value of `high` where the input is 1, and that of `low` where it is 0.
#[derive(Clone, Copy, Debug, PartialEq, Eq)]
pub struct Fork {
    /// The number of the input that it asks.
    pub var: u8,
    /// The part where the input is 0.
    pub low: Term,
    /// The part where the input is 1.
    pub high: Term,
}

/// The forks of a cover, and the term that is the cover's value.
///
/// Forks are numbered from 0 in the order of the first visit from the root, a fork before its low part,
/// and the low part before the high part.
#[derive(Debug, Drop)]
pub struct Forest {
    /// The forks by their numbers.
    pub forks: Items<Fork>,
    /// The term that is the cover's value.
    pub root: Term,
}
