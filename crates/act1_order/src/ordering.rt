use act1_base::Items;

/// What is found of the vertices of a directed graph.
#[derive(Debug, Drop)]
pub enum Ordering {
    /// All vertices, each after those that it reads.
    Order(Items<u16>),
    /// The least vertex that lies on a ring.
    Ring(u16),
}
