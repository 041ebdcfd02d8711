ghost use Rattle.std.specs.Prelude.{IsTrue, length, ◌<◌, ◌^◌};
ghost use Rattle.act1_channel.specs.Ranges.{is_problem};

use act1_base::Items;

/// What wants a track: it needs the columns from `left` to `right`.
#[derive(Clone, Copy)]
pub struct Connection {
    /// The first column.
    pub left: u8,
    /// The last column.
    pub right: u8,
}

/// A segmented channel after Greene, Roychowdhury, Kaptanoglu and El Gamal: its tracks, the
/// connections that want them, and how many segments of a track one of these may occupy.
#[derive(Drop)]
pub struct Problem {
    /// How many columns there are.
    pub columns: u8,
    /// How many segments of its track a connection may occupy.
    pub k: u8,
    /// The breaks of each track: a break b parts the columns below b from the others.
    pub tracks: Items<Items<u8>>,
    /// What wants a track.
    pub connections: Items<Connection>,
    pub ghost valid: { IsTrue (is_problem columns k tracks connections) },
}

/// The choice that a connection takes a track.
#[derive(Clone, Copy)]
pub struct Choice {
    /// The connection, by its number.
    pub connection: u16,
    /// The track, by its number.
    pub track: u8,
}

/// The name of a clause.
#[derive(Clone, Copy)]
pub enum Hint {
    /// The connection takes one of its allowed tracks.
    AtLeast(u16),
    /// Two connections that clash on a track don't both take it.
    Clash { first: u16, second: u16, track: u8 },
    /// Not all choices of the step of this number, from 0, are taken.
    Step(u32),
}

/// A step of a refutation: choices that aren't all taken, and the clauses that show it.
#[derive(Drop)]
pub struct Step {
    /// The choices, by connection and then by track.
    pub choices: Items<Choice>,
    /// The names of the clauses, in the order in which they are used.
    pub hints: Items<Hint>,
}

/// A refutation: steps of which each follows from the clauses and from the steps before it.
#[derive(Drop)]
pub struct Log {
    /// The steps.
    pub steps: Items<Step>,
    pub ghost few: { length steps < 2 ^ 32 },
}
