ghost use Rattle.act1_place.specs.Kept.{KeptIsTotal};
ghost use Rattle.act1_place.specs.Laws.{PlacementsAreOne};
ghost use Rattle.act1_place.specs.Moves.{ExchangeIsBySums, SumsStay};

/// The law of sums: what `Gains` keeps of a circuit's nets adds up to the sum of the half perimeters of the circuit.
pub fn kept_is_total()
    ensures { KeptIsTotal }
{}

/// The law of placements: a circuit has one placement on a device for each seed.
pub fn one_placement()
    ensures { PlacementsAreOne }
{}

/// The law of moves: for each module and each column and row, what it would add to the sum to stand there. Where what
/// stands at two sites shares no net, an exchange changes the sum by these numbers alone, and they stay as they are for
/// each module that shares no net with what was exchanged.
pub fn exchanges_are_by_sums()
    ensures exchange { ExchangeIsBySums }
    ensures stay { SumsStay }
{}
