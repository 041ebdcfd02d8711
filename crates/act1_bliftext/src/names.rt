ghost use Rattle.std.specs.Prelude.{◌≡◌, [], ◌∷◌, nat_eq, map, IfOk};
ghost use Rattle.std.specs.Cmp.Lexicographic.{pointwise, nat_list_eq_equiv};
ghost use Rattle.std.specs.Cmp.Rules.{hashing};
ghost use Rattle.std.proofs.Common.{rules};
ghost use Rattle.act1_bliftext.specs.NumberingSteps.{Numbers, NumbersAll, AddsNames};

use crate::fault::BlifKind;
use crate::forms::has_long;
use act1_base::{HashSeed, Items, Memory, Name, Stop};
use indexmap::{Equivalent, IndexSet};
use std::alloc::Global;
use std::hash::{Hash, Hasher};
use std::marker::Model;

// A word by whose bytes a name is looked up, so that no name is made of a word whose name is there.
#[derive(Clone, Copy, PartialEq, Eq)]
struct Word<'a> {
    bytes: &'a [u8],
}

// As a name is hashed.
impl<'a> Hash for Word<'a> {
    ghost hash_input = { λ word. word.bytes.now ∷ [] };

    ghost respects_eq = { Prim.search (hashing, rules) };

    fn hash<H: Hasher>(&self, state: &mut H) {
        state.write(self.bytes);
    }
}

impl<'a> Equivalent<Name> for Word<'a> {
    ghost equivalent = { λ word name. pointwise nat_eq word.bytes.now name };

    ghost respects_hash = { Prim.search (hashing, rules) };

    ghost respects_eq = { λ word x y. nat_list_eq_equiv.congr word.bytes.now x y };

    fn equivalent(&self, key: &Name) -> bool {
        self.bytes == key.as_bytes()
    }
}

/// The names of a text, numbered in the order of their first use: at most 65,535.
#[derive(Drop)]
pub struct Names {
    set: IndexSet<Name, HashSeed>,
}

impl Model for Names {
    ghost use Rattle.std.specs.Prelude.{List, ℕ, ◌≤◌, length};

    ghost Value = { List (List ℕ) };

    ghost view = { λ a. a.set.keys };

    ghost invariant = { λ a. length a.set.keys ≤ 65535 };
}

impl Names {
    /// No names, in a table that hashes by `seed`.
    pub fn new(alloc: Global, seed: HashSeed) -> Names
        ensures { result ≡ [] }
    {
        Names {
            set: IndexSet::with_hasher(alloc, seed),
        }
    }

    // The number of a name, which goes last where it is new.
    fn number(&mut self, alloc: Global, word: &[u8]) -> Result<u16, Stop<BlifKind>>
        ensures { Numbers self.old word.now self.new result }
    {
        if let Some(number) = self.set.get_index_of(Word { bytes: word }) {
            return Ok(number as u16);
        }
        if self.set.len() == 65_535 {
            return Err(Stop::Fault(BlifKind::Limit));
        }
        match self.set.insert_full(Name::new(alloc, word)?) {
            Ok((number, _)) => Ok(number as u16),
            Err(_) => Err(Stop::Memory),
        }
    }

    // The numbers of names, where none is too long.
    fn numbers(&mut self, alloc: Global, words: &[&[u8]]) -> Result<Items<u16>, Stop<BlifKind>>
        ensures { NumbersAll self.old (map (λ w. w.now) words.now) self.new result }
    {
        let _ = &self.set;
        let mut numbers = Vec::with_capacity(alloc, words.len())?;
        for word in words {
            let number = self.number(alloc, word)?;
            numbers.push_reserved(number);
        }
        Ok(Items::from_vec(numbers))
    }

    /// The numbers of the names that a line uses. `Limit` comes where a name is too long, and where the
    /// names become too many.
    pub fn add(&mut self, alloc: Global, words: &[&[u8]]) -> Result<Items<u16>, Stop<BlifKind>>
        ensures { AddsNames self.old (map (λ w. w.now) words.now) self.new result }
    {
        if has_long(words) {
            return Err(Stop::Fault(BlifKind::Limit));
        }
        self.numbers(alloc, words)
    }

    /// The names in their order.
    pub fn into_items(self, alloc: Global) -> Result<Items<Name>, Memory>
        ensures { IfOk result (λ names. names ≡ self) }
    {
        let mut names = Items::new(alloc);
        for name in self.set {
            names.push(name)?;
        }
        Ok(names)
    }
}
