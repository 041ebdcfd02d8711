ghost use Rattle.std.specs.Prelude.{IsTrue};
ghost use Rattle.act1_logic.specs.Rows.{is_cover};

use crate::marks::Marks;
use act1_base::Items;

/// What a row of a cover asks of one input: that it is 0, that it is 1, or nothing.
#[derive(Clone, Copy, Debug, Default, PartialEq, Eq)]
pub enum Mark {
    /// The input is 0.
    Zero,
    /// The input is 1.
    One,
    /// The input may be either.
    #[default]
    Dash,
}

/// A row of a cover: one mark per input.
#[derive(Debug, Drop)]
pub struct Row {
    /// What it asks of each input, in order.
    pub marks: Marks,
}

/// The function of a `.names` of Berkeley's BLIF: `output` where some row agrees with the inputs,
/// and the other value where none does.
///
/// It has at most 64 inputs (`width`), rows of `width` marks, and fewer than 2^32 marks in all.
/// With no rows `output` is true, and so the value is 0 everywhere.
#[derive(Debug, Drop)]
pub struct Cover {
    /// How many inputs it has.
    pub width: u8,
    /// The value where some row agrees.
    pub output: bool,
    /// The rows, as they were read.
    pub rows: Items<Row>,
    pub ghost valid: { IsTrue (is_cover width output rows) },
}
