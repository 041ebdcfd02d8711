/// The least of the numbers of a net's places in one direction, at most 255, and what it is without one module.
#[derive(Clone, Copy, Debug)]
pub struct Reach {
    /// The least.
    pub least: u8,
    /// The module whose it is; 65535 for a pad.
    pub module: u16,
    /// The least without this module.
    pub rest: u8,
}

/// How far a net's places reach. To the right and upwards they are told from 255 down.
#[derive(Clone, Copy, Debug)]
pub struct Ends {
    /// To the left.
    pub left: Reach,
    /// To the right.
    pub right: Reach,
    /// Downwards.
    pub low: Reach,
    /// Upwards.
    pub high: Reach,
    /// The half perimeter.
    pub sum: u16,
}

/// What some nets add up to, now and with a module elsewhere.
#[derive(Clone, Copy, Debug)]
pub struct Change {
    /// Now.
    pub before: u64,
    /// With the module elsewhere.
    pub after: u64,
}
