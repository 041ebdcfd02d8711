ghost use Rattle.std.specs.Prelude.{IsTrue, length};
ghost use Rattle.act1_logic.specs.Rows.{is_cover};

use act1_base::Items;
use act1_logic::Row;

/// A `.names` to which rows may still come.
#[derive(Drop)]
pub struct OpenNames {
    /// The number of its line.
    pub line: u32,
    /// Its inputs.
    pub inputs: Items<u16>,
    /// Its output.
    pub output: u16,
    /// Whether its rows give the on-set.
    pub value: bool,
    /// The rows so far.
    pub rows: Items<Row>,
    pub ghost valid: { IsTrue (is_cover (length inputs) value rows) },
}
