ghost use Rattle.std.specs.Prelude.{ℕ, List, ◌≡◌, ◌++◌, ◌∷◌, [], Contains, IfOk, OnOk, MatchOption};
ghost use Rattle.act1_net.specs.TableSteps.{Has, HasNone};

use crate::key::Key;
use act1_base::Memory;
use indexmap::IndexMap;
use std::alloc::Global;
use std::marker::Model;

/// The signals of the nodes that are kept so far, by their functions of signals. A contract sees it as the list
/// of its entries.
#[derive(Drop)]
pub struct Table {
    signals: IndexMap<Key, u16>,
}

impl Model for Table {
    ghost use Rattle.std.specs.Prelude.{ℕ, List};

    ghost Value = { List (List ℕ × ℕ) };

    ghost view = { λ t. t.signals.entries };
}

impl Table {
    /// No nodes; it takes no memory.
    pub fn new(alloc: Global) -> Table
        ensures { result ≡ [] }
    {
        Table {
            signals: IndexMap::new(alloc),
        }
    }

    /// The signal of a node with this function, if there is one.
    pub fn find(&self, key: &Key) -> Option<u16>
        ensures { MatchOption result (HasNone self.now key.now) (Has self.now key.now) }
    {
        self.signals.get(key).copied()
    }

    /// One node more, whose function no other has.
    pub fn add(&mut self, key: Key, signal: u16) -> Result<(), Memory>
        requires { HasNone self.old key }
        ensures { OnOk result (self.new ≡ self.old ++ (key, signal) ∷ []) }
    {
        self.signals.insert(key, signal)?;
        Ok(())
    }
}
