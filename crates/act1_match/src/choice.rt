/// What a pin of a logic module is connected to.
#[derive(Clone, Copy, Debug, PartialEq, Eq)]
pub enum PinChoice {
    /// The constant 0.
    Zero,
    /// The constant 1.
    One,
    /// The variable of this number.
    Var(u8),
}
