use act1_cover::Tile;

/// A tile of a node that is read: one module of the circuit.
#[derive(Clone, Copy, Debug)]
pub struct NodeTile {
    /// The node, by its number among the nodes.
    pub node: u16,
    /// The tile.
    pub tile: Tile,
}
