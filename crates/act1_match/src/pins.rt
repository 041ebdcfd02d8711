ghost use Rattle.std.specs.Prelude.{◌≡◌};

use crate::choice::PinChoice;

// Three pins of a module: `high` goes through where `select` is 1, and else `low`.
#[derive(Clone, Copy)]
pub struct Multiplexer {
    pub low: PinChoice,
    pub high: PinChoice,
    pub select: PinChoice,
}

// The eight pins of a module: `b` goes through where one of the selects is 1, and else `a`.
#[derive(Clone, Copy)]
pub struct Pins {
    pub a: Multiplexer,
    pub b: Multiplexer,
    pub s0: PinChoice,
    pub s1: PinChoice,
}

impl Pins {
    ghost use Rattle.act1_match.specs.SearchSteps.{pin_list};

    // The pins in the order A0, A1, SA, B0, B1, SB, S0 and S1.
    pub fn in_order(self) -> [PinChoice; 8]
        ensures { result ≡ pin_list self }
    {
        let Pins { a, b, s0, s1 } = self;
        let (a0, a1, sa) = (a.low, a.high, a.select);
        let (b0, b1, sb) = (b.low, b.high, b.select);
        [a0, a1, sa, b0, b1, sb, s0, s1]
    }
}
