ghost use Rattle.std.specs.Prelude.{◌≡◌, ℕ, List, ◌++◌, not, false, length, IsTrue};
ghost use Rattle.act1_base.specs.Names.{are_different_numbers};
ghost use Rattle.act1_bliftext.specs.Rules.{are_below};
ghost use Rattle.act1_blifread.specs.NetlistSteps.{AreMarks};

// Marks names one after the other, up to one that is marked already; whether there is one.
pub fn is_marked_again(marks: &mut Vec<bool>, names: &[u16]) -> bool
    requires { IsTrue (are_below (length marks.old.items) names.now) }
    ensures again { (before : List ℕ) → AreMarks (length marks.old.items) before marks.old.items
        → result ≡ not (are_different_numbers (before ++ names.now)) }
    ensures marked { (before : List ℕ) → AreMarks (length marks.old.items) before marks.old.items
        → result ≡ false → AreMarks (length marks.old.items) (before ++ names.now) marks.new.items }
{
    for name in names {
        let at = usize::from(*name);
        if marks[at] {
            return true;
        }
        marks[at] = true;
    }
    false
}
