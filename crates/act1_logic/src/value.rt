ghost use Rattle.std.specs.Prelude.{◌≡◌, length};
ghost use Rattle.act1_logic.specs.Rows.{agrees};
ghost use Rattle.act1_logic.specs.Cover.{value_of};

use crate::cover::{Cover, Mark};

// Whether each mark 0 or 1 is the value at its place.
fn row_agrees(marks: &[Mark], values: &[bool]) -> bool
    requires { length marks.now ≡ length values.now }
    ensures { result ≡ agrees marks.now values.now }
{
    for (mark, value) in marks.iter().zip(values) {
        match mark {
            Mark::Zero => {
                if *value {
                    return false;
                }
            }
            Mark::One => {
                if !*value {
                    return false;
                }
            }
            Mark::Dash => {}
        }
    }
    true
}

/// The value of a cover at the values of its inputs: `output` where some row agrees with them, and
/// else the other value. It takes no memory.
pub fn cover_value(cover: &Cover, values: &[bool]) -> bool
    requires { length values.now ≡ cover.now.width }
    ensures { result ≡ value_of cover.now values.now }
{
    for row in cover.rows.as_slice() {
        if row_agrees(row.marks.as_slice(), values) {
            return cover.output;
        }
    }
    !cover.output
}
