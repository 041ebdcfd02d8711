use crate::tile::Shape;

/// A tile that may stand at a fork, and how many tiles its fork and all forks of the same tree below it take
/// with it.
#[derive(Clone, Copy)]
pub struct Choice {
    pub cost: u128,
    pub shape: Shape,
}

/// The entry of a fork in the table of costs: the least choice.
#[derive(Clone, Copy)]
pub struct Best {
    pub cost: u64,
    pub shape: Shape,
}
