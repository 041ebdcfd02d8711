ghost use Rattle.std.specs.Prelude.{◌≡◌};
ghost use Rattle.act1_plan.specs.Nets.{is_same_source};

use act1_circuit::Source;

/// Whether the two sources are one.
pub fn is_same_source(a: Source, b: Source) -> bool
    ensures { result ≡ is_same_source a b }
{
    match a {
        Source::Zero => matches!(b, Source::Zero),
        Source::One => matches!(b, Source::One),
        Source::Clock => matches!(b, Source::Clock),
        Source::Input(input) => match b {
            Source::Input(other) => input == other,
            _ => false,
        },
        Source::Module(module) => match b {
            Source::Module(other) => module == other,
            _ => false,
        },
    }
}
