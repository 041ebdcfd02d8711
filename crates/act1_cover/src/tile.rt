use act1_base::Items;

/// What a tile has beside the fork at which it stands. The tile shapes are this project's own.
#[derive(Clone, Copy, Debug, PartialEq, Eq)]
pub struct Shape {
    /// `if (x or y) then h else l`: the tile also covers the fork's low part, whose high part is the same
    /// as the fork's.
    pub or_form: bool,
    /// The high side is a multiplexer: the tile also covers the fork that its high part is.
    pub high_side: bool,
    /// The low side is a multiplexer: the tile also covers the fork that its low part is, and in the OR form
    /// that of the low part.
    pub low_side: bool,
}

impl Shape {
    ghost use Rattle.std.specs.Prelude.{◌≡◌};
    ghost use Rattle.act1_cover.specs.Tilings.{shape_number};

    /// The number of a shape: the sum of 1 for the OR form, 2 where the high side is a multiplexer and 4 where
    /// the low side is one.
    pub fn number(self) -> u8
        ensures { result ≡ shape_number self }
    {
        u8::from(self.or_form) + 2 * u8::from(self.high_side) + 4 * u8::from(self.low_side)
    }
}

/// A tile of a forest: forks that one logic module can be.
#[derive(Clone, Copy, Debug, PartialEq, Eq)]
pub struct Tile {
    /// The number of the fork at which it stands.
    pub fork: u32,
    /// Its shape.
    pub shape: Shape,
}

/// The tiles of a forest.
#[derive(Debug, Drop)]
pub struct Tiles {
    /// The tiles, rising by their forks.
    pub tiles: Items<Tile>,
}
