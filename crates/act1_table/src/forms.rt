use crate::numbers::Numbers;
use act1_base::{Items, Name};

/// How large a number may be. A number is spelled by decimal digits, without a sign, and without a leading
/// zero but in `0` itself.
#[derive(Clone, Copy)]
pub enum Limit {
    /// A number of at most this; a greater one isn't read.
    Most(u64),
    /// A number of any length; one that is greater than this is read as this.
    Cap(u32),
}

/// A part of a word.
#[derive(Clone, Copy)]
pub enum Part {
    /// These bytes.
    Text(&'static [u8]),
    /// A number.
    Number(Limit),
}

/// What may stand as a word of a line.
#[derive(Clone, Copy)]
pub enum Field {
    /// A name: 1 to 1,024 bytes from 0x21 to 0x7E without `#`, of which the last is no backslash.
    Name,
    /// A word of one of these ways; the parts of a way stand one behind the other.
    OneOf(&'static [&'static [Part]]),
}

/// The form of a line: words that are parted by one space.
#[derive(Clone, Copy)]
pub struct Form {
    /// Its first words.
    pub fields: &'static [Field],
    /// Each word behind them, to the end of the line. With `OneOf(&[])` there is none.
    pub rest: Field,
}

/// What a word says.
#[derive(Drop)]
pub enum Given {
    /// This name.
    Name(Name),
    /// The way of this number among those of its field, with these numbers.
    Way {
        /// The number of the way, from 0.
        way: usize,
        /// The numbers of its parts, in their order.
        numbers: Numbers,
    },
}

/// What a line says.
#[derive(Drop)]
pub struct LineGiven {
    /// The number of its form in the table, from 0.
    pub form: usize,
    /// What each of its words says.
    pub words: Items<Given>,
}
