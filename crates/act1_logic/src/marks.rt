ghost use Rattle.std.specs.Prelude.{◌≡◌, [], ◌∷◌, ◌++◌, IfOk, OnOk};

use crate::cover::Mark;
use act1_base::Memory;
use smallvec::SmallVec;
use std::alloc::Global;
use std::marker::Model;

/// The marks of a row, which contracts see as a list. The first 24 take no memory of their own, since most rows have no
/// more and a netlist has many rows.
#[derive(Debug, Drop)]
pub struct Marks {
    items: SmallVec<Mark, 24>,
}

impl Model for Marks {
    ghost use Rattle.std.specs.Prelude.{List};
    ghost use Rattle.act1_logic.specs.declared.cover.Mark.{Mark};

    ghost Value = { List Mark };

    ghost view = { λ marks. marks.items.items };
}

impl Marks {
    /// No marks.
    pub fn new(alloc: Global) -> Marks
        ensures { result ≡ [] }
    {
        Marks {
            items: SmallVec::new(alloc),
        }
    }

    /// These marks.
    pub fn from_slice(alloc: Global, marks: &[Mark]) -> Result<Marks, Memory>
        ensures { IfOk result (λ it. it ≡ marks.now) }
    {
        Ok(Marks {
            items: SmallVec::from_slice(alloc, marks)?,
        })
    }

    /// Adds a mark at the end.
    pub fn push(&mut self, mark: Mark) -> Result<(), Memory>
        ensures { OnOk result (self.new ≡ self.old ++ mark ∷ []) }
    {
        self.items.push(mark)?;
        Ok(())
    }

    /// The marks in their order.
    pub fn as_slice(&self) -> &[Mark]
        ensures { result.now ≡ self.now }
    {
        self.items.as_slice()
    }
}
