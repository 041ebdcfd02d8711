use act1_base::Name;
use act1_circuit::Placed;

/// A circuit whose modules have spots on a device, and the most segments of a track that a connection may
/// occupy.
#[derive(Debug, Drop)]
pub struct Plan {
    /// The name of the device.
    pub device: Name,
    /// The most segments of its track that a connection may occupy.
    pub k: u8,
    /// The circuit, and where its modules stand.
    pub placed: Placed,
}
