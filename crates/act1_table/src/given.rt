ghost use Rattle.std.specs.Prelude.{◌≡◌, [], ◌∷◌, ◌++◌, OnOk};
ghost use Rattle.act1_table.specs.Values.{fixed, number, with_word};
ghost use Rattle.act1_table.specs.declared.forms.Given.TheVariants.{Way};

use crate::forms::{Given, LineGiven};
use crate::numbers::Numbers;
use act1_base::{Items, Memory};
use std::alloc::Global;

impl LineGiven {
    /// A line of the form of this number, with no words yet.
    pub fn new(alloc: Global, form: usize) -> LineGiven
        ensures { result ≡ record { form = form; words = [] } }
    {
        LineGiven {
            form,
            words: Items::new(alloc),
        }
    }

    /// Adds a fixed word, or the first way of a field without numbers.
    pub fn add_fixed(&mut self, alloc: Global) -> Result<(), Memory>
        ensures { OnOk result (self.new ≡ with_word self.old fixed) }
    {
        let numbers = Numbers::new(alloc);
        self.words.push(Given::Way { way: 0, numbers })
    }

    /// Adds a word that is a number.
    pub fn add_number(&mut self, alloc: Global, n: u64) -> Result<(), Memory>
        ensures { OnOk result (self.new ≡ with_word self.old (number n)) }
    {
        let mut numbers = Numbers::new(alloc);
        numbers.push(n)?;
        self.words.push(Given::Way { way: 0, numbers })
    }

    /// Adds a word of the way of this number among those of its field, with these numbers.
    pub fn add_way(&mut self, alloc: Global, way: usize, numbers: &[u64]) -> Result<(), Memory>
        ensures { OnOk result (self.new ≡ with_word self.old (Way way numbers.now)) }
    {
        let numbers = Numbers::from_slice(alloc, numbers)?;
        self.words.push(Given::Way { way, numbers })
    }
}
