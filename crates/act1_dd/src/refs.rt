/// A diagram of some `Diagrams`: one of the two constants, or a fork by its number. It has a meaning
/// only together with the `Diagrams` that gave it.
#[derive(Clone, Copy, Debug, PartialEq, Eq, Hash)]
pub enum Ref {
    /// The constant 0.
    Zero,
    /// The constant 1.
    One,
    /// The fork of this number. Numbers count from 0, in the order in which forks were made.
    Node(usize),
}

/// A fork: the value of `high` where the variable is 1, and that of `low` where it is 0.
#[derive(Clone, Copy, Debug, PartialEq, Eq, Hash)]
pub struct Branch {
    /// The variable that it asks.
    pub var: u8,
    /// The part where the variable is 0.
    pub low: Ref,
    /// The part where the variable is 1.
    pub high: Ref,
}

/// The choice between two diagrams by a third: `yes` where `test` is 1, and `no` where it is 0.
#[derive(Clone, Copy, Debug, PartialEq, Eq, Hash)]
pub struct Choice {
    pub test: Ref,
    pub yes: Ref,
    pub no: Ref,
}

/// A choice as a fork: `var` is the first variable of it, and the two sides are what is left of it
/// where that variable is 0 and where it is 1.
#[derive(Clone, Copy)]
pub struct Split {
    pub var: u8,
    pub low: Choice,
    pub high: Choice,
}

/// What a result was asked for.
#[derive(Clone, Copy, Debug, PartialEq, Eq, Hash)]
pub enum Question {
    /// A choice.
    Choose(Choice),
    /// A diagram with a fixed value for one variable.
    Restrict { of: Ref, var: u8, value: bool },
}
