ghost use Rattle.act1_order.specs.Laws.{LevelsWithoutRing, OrderWithoutRing, RingOrNone};

/// The law of rings: a vertex lies on a ring or doesn't. Where no vertex does, each has a level above
/// those that it reads; and where the vertices stand after those that they read, none does.
pub fn rings_and_levels()
    ensures decided { RingOrNone }
    ensures levels { LevelsWithoutRing }
    ensures orders { OrderWithoutRing }
{}
