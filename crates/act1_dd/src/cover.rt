ghost use Rattle.act1_dd.specs.Steps.{IsConstant};

use crate::diagrams::Diagrams;
use crate::fault::DdFault;
use crate::refs::Ref;
use act1_base::Memory;
use act1_logic::{Cover, Mark};
use indexmap::IndexSet;

// The diagram of a constant.
fn constant(value: bool) -> Ref
    ensures { IsConstant value result }
{
    if value { Ref::One } else { Ref::Zero }
}

impl Diagrams {
    ghost use Rattle.std.specs.Prelude.{◌≤◌, ◌+◌, IfOk, length};
    ghost use Rattle.act1_dd.specs.Diagram.{Keeps, IsFrom, IsRef};
    ghost use Rattle.act1_dd.specs.Steps.{AreMarks, IsMarked};
    ghost use Rattle.act1_dd.specs.Limit.{GivesDiagram};

    // The diagram of a mark and of the marks behind it.
    fn with_mark(&mut self, var: u8, mark: Mark, rest: Ref) -> Result<Ref, Memory>
        requires is_ref { IsRef self.old rest }
        requires later { IsFrom self.old (var + 1) rest }
        ensures keeps { Keeps self.old self.new }
        ensures is_ref { IfOk result (IsRef self.new) }
        ensures later { IfOk result (IsFrom self.new var) }
        ensures value { IfOk result (IsMarked self.new var mark rest) }
    {
        match mark {
            Mark::Zero => self.fork(var, rest, Ref::Zero),
            Mark::One => self.fork(var, Ref::Zero, rest),
            Mark::Dash => Ok(rest),
        }
    }

    // The diagram that is 1 where the marks agree, from the last mark on.
    fn of_marks(&mut self, marks: &[Mark]) -> Result<Ref, Memory>
        requires { length marks.now ≤ 64 }
        ensures keeps { Keeps self.old self.new }
        ensures is_ref { IfOk result (IsRef self.new) }
        ensures value { IfOk result (AreMarks self.new marks.now) }
    {
        let mut var = marks.len();
        let mut r = Ref::One;
        while var > 0 {
            var -= 1;
            r = self.with_mark(var as u8, marks[var], r)?;
        }
        Ok(r)
    }

    /// The diagram of a cover, in the order of its inputs: input j is variable j. It is made row by row.
    /// Where the diagram of the first rows has more forks than the limit, the answer is `Limit` with the
    /// least such number of rows; forks of single inputs count.
    pub fn from_cover(&mut self, cover: &Cover, limit: usize) -> Result<Ref, DdFault>
        ensures keeps { Keeps self.old self.new }
        ensures diagram { GivesDiagram cover.now limit self.new result }
    {
        let output = constant(cover.output);
        let mut all = constant(!cover.output);
        let mut seen = IndexSet::new(self.alloc);
        for (done, row) in cover.rows.as_slice().iter().enumerate() {
            let agrees = self.of_marks(row.marks.as_slice())?;
            all = self.ite(agrees, output, all)?;
            if self.exceeds(&mut seen, all, limit)? {
                return Err(DdFault::Limit { rows: done + 1 });
            }
        }
        Ok(all)
    }
}
