/// The table of a function of at most six variables: bit i is the function's value at the input of
/// number i, in which variable j has bit j of i.
///
/// The table 0b0110 of two variables is their parity. A function of fewer variables leaves high bits
/// over, which mean nothing.
#[derive(Clone, Copy, Debug, PartialEq, Eq)]
pub struct Table(pub u64);
