ghost use Rattle.std.specs.Prelude.{◌≡◌, IfOk, OnErr};
ghost use Rattle.act1_dd.specs.Steps.{IsNumbered, IsPlain};

use crate::refs::{Branch, Choice, Ref};
use act1_base::Memory;
use indexmap::IndexSet;

/// The number of a fork, which goes last where it is new.
pub fn number_of(forks: &mut IndexSet<Branch>, branch: Branch) -> Result<usize, Memory>
    ensures ok { IfOk result (IsNumbered forks.old.keys branch forks.new.keys) }
    ensures err { OnErr result (forks.new.keys ≡ forks.old.keys) }
{
    let (number, _) = forks.insert_full(branch)?;
    Ok(number)
}

/// The answer to a choice that needs no fork, if it is one.
pub fn plain_choice(choice: Choice) -> Option<Ref>
    ensures { IsPlain choice result }
{
    let Choice { test, yes, no } = choice;
    match test {
        Ref::Zero => Some(no),
        Ref::One => Some(yes),
        Ref::Node(_) => {
            if yes == no {
                return Some(yes);
            }
            match (yes, no) {
                (Ref::One, Ref::Zero) => Some(test),
                _ => None,
            }
        }
    }
}
