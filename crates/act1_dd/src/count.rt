ghost use Rattle.std.specs.Prelude.{◌≡◌, OnOk};
ghost use Rattle.act1_dd.specs.Steps.{with_found};

use crate::diagrams::Diagrams;
use crate::refs::Ref;
use act1_base::Memory;
use indexmap::IndexSet;

// A fork goes last where it is new. A constant is none.
fn find(found: &mut IndexSet<usize>, r: Ref) -> Result<(), Memory>
    ensures { OnOk result (found.new.keys ≡ with_found found.old.keys r) }
{
    if let Ref::Node(node) = r {
        found.insert(node)?;
    }
    Ok(())
}

impl Diagrams {
    ghost use Rattle.std.specs.Prelude.{IfOk, OnOk};
    ghost use Rattle.act1_dd.specs.Diagram.{IsRef, value_at};
    ghost use Rattle.act1_dd.specs.Steps.{AreSeen, IsMore, SeesFew};

    // Whether a diagram has more forks than the limit. Its forks are listed as they are first met, and
    // each listed fork shows its parts; the walk ends as soon as there are too many.
    pub(crate) fn has_more_than(&self, f: Ref, limit: usize) -> Result<bool, Memory>
        requires { IsRef self.now f }
        ensures { IfOk result (IsMore (value_at self.now f) limit) }
    {
        self.are_reduced();
        let mut found = IndexSet::new(self.alloc);
        find(&mut found, f)?;
        let mut next = 0;
        while let Some(node) = found.get_index(next) {
            if found.len() > limit {
                return Ok(true);
            }
            let branch = self.branch(*node);
            find(&mut found, branch.low)?;
            find(&mut found, branch.high)?;
            next += 1;
        }
        Ok(false)
    }

    // Adds the forks of a diagram to those that were seen: only new ones are looked at. False where more than the
    // limit were seen then, and what was seen is of no use any more.
    fn see(&self, seen: &mut IndexSet<usize>, f: Ref, limit: usize) -> Result<bool, Memory>
        requires is_ref { IsRef self.now f }
        requires seen { AreSeen self.now seen.old.keys }
        ensures { IfOk result (SeesFew self.now f limit seen.new.keys) }
    {
        self.are_reduced();
        let mut next = seen.len();
        find(seen, f)?;
        while let Some(node) = seen.get_index(next) {
            if seen.len() > limit {
                return Ok(false);
            }
            let branch = self.branch(*node);
            find(seen, branch.low)?;
            find(seen, branch.high)?;
            next += 1;
        }
        if seen.len() > limit {
            return Ok(false);
        }
        Ok(true)
    }

    // Whether a diagram has more forks than the limit. Those that were seen are at least its forks; only where they
    // are too many is the diagram walked alone, and then nothing was seen.
    pub(crate) fn exceeds(
        &self,
        seen: &mut IndexSet<usize>,
        f: Ref,
        limit: usize,
    ) -> Result<bool, Memory>
        requires is_ref { IsRef self.now f }
        requires seen { AreSeen self.now seen.old.keys }
        ensures more { IfOk result (IsMore (value_at self.now f) limit) }
        ensures seen { OnOk result (AreSeen self.now seen.new.keys) }
    {
        if self.see(seen, f, limit)? {
            return Ok(false);
        }
        *seen = IndexSet::new(self.alloc);
        self.has_more_than(f, limit)
    }
}
