ghost use Rattle.std.specs.Prelude.{◌≡◌, [], ◌∷◌, ◌++◌, IfOk, OnOk};

use act1_base::Memory;
use smallvec::SmallVec;
use std::alloc::Global;
use std::marker::Model;

/// The numbers of a word, which contracts see as a list. The first three take no memory.
#[derive(Drop)]
pub struct Numbers {
    items: SmallVec<u64, 3>,
}

impl Model for Numbers {
    ghost use Rattle.std.specs.Prelude.{List, ℕ};

    ghost Value = { List ℕ };

    ghost view = { λ numbers. numbers.items.items };
}

impl Numbers {
    /// No numbers.
    pub fn new(alloc: Global) -> Numbers
        ensures { result ≡ [] }
    {
        Numbers {
            items: SmallVec::new(alloc),
        }
    }

    /// These numbers.
    pub fn from_slice(alloc: Global, numbers: &[u64]) -> Result<Numbers, Memory>
        ensures { IfOk result (λ it. it ≡ numbers.now) }
    {
        Ok(Numbers {
            items: SmallVec::from_slice(alloc, numbers)?,
        })
    }

    /// Adds a number at the end.
    pub fn push(&mut self, n: u64) -> Result<(), Memory>
        ensures { OnOk result (self.new ≡ self.old ++ n ∷ []) }
    {
        self.items.push(n)?;
        Ok(())
    }

    /// The numbers in their order.
    pub fn as_slice(&self) -> &[u64]
        ensures { result.now ≡ self.now }
    {
        self.items.as_slice()
    }
}
