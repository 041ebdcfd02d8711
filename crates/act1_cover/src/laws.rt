ghost use Rattle.act1_cover.specs.Denotes.{ChainsAreFew, ForestsDenote};
ghost use Rattle.act1_cover.specs.Pins.{TilesGiveValues};
ghost use Rattle.act1_cover.specs.Least.{EachTileIsRead, LeastIsFew, NoThreeNoSeven};

/// No tile has the shape 3 or 7.
pub fn no_three_no_seven()
    ensures { NoThreeNoSeven }
{}

/// The forest of a cover has the cover's value.
pub fn forests_denote()
    ensures { ForestsDenote }
{}

/// Each tile of a tiling but that at the forest's root is referred to by a tile.
pub fn each_tile_is_read()
    ensures { EachTileIsRead }
{}

/// A tiling with the fewest tiles has at most as many as the forest has forks, and a literal chain has at most
/// as many forks as its cover has literals.
pub fn least_is_few()
    ensures forks { LeastIsFew }
    ensures chains { ChainsAreFew }
{}

/// A module whose pins are a tile's, as terms, has the value of the tile's fork.
pub fn tiles_give_values()
    ensures { TilesGiveValues }
{}
