use act1_base::Items;
use act1_logic::Row;

/// A node's function of some signals, without its name: `output` where a row agrees with the signals,
/// and the other value where none does.
#[derive(Drop)]
pub struct Gate {
    /// The signals, in order.
    pub inputs: Items<u16>,
    /// The value where a row agrees.
    pub output: bool,
    /// The rows, with a mark for each signal.
    pub rows: Items<Row>,
}
