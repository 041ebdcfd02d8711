use act1_base::Items;
use act1_channel::Connection;

/// What the lines of a job say so far. It has no tracks yet, or is a job.
#[derive(Drop)]
pub struct Draft {
    /// The number of columns.
    pub columns: u8,
    /// The most segments of a track that a connection may overlap.
    pub k: u8,
    /// The most conflicts of the search.
    pub budget: u64,
    /// The breaks of each track.
    pub tracks: Items<Items<u8>>,
    /// The connections.
    pub connections: Items<Connection>,
}
