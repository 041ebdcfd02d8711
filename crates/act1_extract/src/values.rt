ghost use Rattle.std.specs.Prelude.{◌≡◌, length, slice_index_or};
ghost use Rattle.act1_meaning.specs.Extracted.{different, lookup, module_in, value_in};

use crate::sources::is_same;
use act1_circuit::Source;
use act1_logic::module_value;

// The value that stands beside a source, and 0 where none does.
fn lookup(sources: &[Source], values: &[bool], source: Source) -> bool
    requires { length values.now ≡ length sources.now }
    ensures { result ≡ lookup sources.now values.now source }
{
    for (other, value) in sources.iter().zip(values) {
        if is_same(*other, source) {
            return *value;
        }
    }
    false
}

// The value of a source where these sources have these values.
fn value_in(sources: &[Source], values: &[bool], source: Source) -> bool
    requires { length values.now ≡ length sources.now }
    ensures { result ≡ value_in sources.now values.now source }
{
    match source {
        Source::Zero => false,
        Source::One => true,
        Source::Clock => lookup(sources, values, source),
        Source::Input(_) => lookup(sources, values, source),
        Source::Module(_) => lookup(sources, values, source),
    }
}

/// What a module with these pins gives, where its different sources have these values.
pub fn module_in(pins: [Source; 8], sources: &[Source], values: &[bool]) -> bool
    requires sources { sources.now ≡ different pins }
    requires values { length values.now ≡ length sources.now }
    ensures { result ≡ module_in pins values.now }
{
    let [a0, a1, sa, b0, b1, sb, s0, s1] = pins;
    module_value([
        value_in(sources, values, a0),
        value_in(sources, values, a1),
        value_in(sources, values, sa),
        value_in(sources, values, b0),
        value_in(sources, values, b1),
        value_in(sources, values, sb),
        value_in(sources, values, s0),
        value_in(sources, values, s1),
    ])
}
