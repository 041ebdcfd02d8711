ghost use Rattle.std.specs.Prelude.{◌≡◌, slice_index_or, false};
ghost use Rattle.act1_logic.specs.Module.{module_of};

/// What the logic module of the ACT 1 data book gives at its pins A0, A1, SA, B0, B1, SB, S0 and
/// S1: `if SB then B1 else B0` where S0 or S1 is 1, and `if SA then A1 else A0` where both are 0.
pub fn module_value(pins: [bool; 8]) -> bool
    ensures { result ≡ module_of (λ k. slice_index_or pins k false) }
{
    let [a0, a1, sa, b0, b1, sb, s0, s1] = pins;
    if s0 || s1 {
        if sb { b1 } else { b0 }
    } else if sa {
        a1
    } else {
        a0
    }
}
