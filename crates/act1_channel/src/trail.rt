ghost use Rattle.std.specs.Prelude.{ℕ, ◌≡◌, ◌<◌, ◌*◌, ◌-◌, ◌≤◌, None, Some, [], ◌∷◌, ◌++◌, take, length, IfOk, slice_get, slice_index_or};
ghost use Rattle.act1_channel.specs.Found.{facts_of, truth_in, HasPlace, Tell};

use crate::problem::{Choice, Hint};
use act1_base::Memory;
use std::alloc::Global;
use std::marker::Model;

/// A fact: that a choice is taken, or that it is refused, and the clause that gave it.
#[derive(Clone, Copy)]
pub struct Entry {
    /// The choice.
    pub choice: Choice,
    /// Whether it is taken.
    pub truth: bool,
    /// The clause that gave it, or `None` where it was assumed.
    pub why: Option<Hint>,
}

/// Facts in the order in which they were found. No choice has two. There is room for a fact about
/// each choice of so many connections and tracks, so that adding one takes no memory; the fact about
/// a choice is found at once.
#[derive(Drop)]
pub struct Trail {
    entries: Vec<Entry>,
    used: usize,
    table: Vec<Option<bool>>,
    tracks: usize,
}

impl Model for Trail {
    ghost use Rattle.std.specs.Prelude.{take, length};
    ghost use Rattle.act1_channel.specs.Found.{Found};

    ghost Value = { Found };

    ghost use Rattle.act1_channel.specs.TrailSteps.{IsTable};

    ghost view = { λ t. record { entries = take t.used t.entries.items; places = length t.table.items; tracks = t.tracks } };

    ghost invariant = { λ t. IsTable t.entries.items t.used t.table.items t.tracks };
}

impl Trail {
    /// No facts, with room for all choices of so many connections and tracks.
    pub fn new(alloc: Global, connections: usize, tracks: usize) -> Result<Trail, Memory>
        requires connections { connections ≤ 8192 }
        requires tracks { tracks ≤ 64 }
        ensures { IfOk result (λ t. t ≡ record { entries = []; places = connections * tracks; tracks = tracks }) }
    {
        let none = Entry {
            choice: Choice {
                connection: 0,
                track: 0,
            },
            truth: false,
            why: None,
        };
        Ok(Trail {
            entries: vec![in alloc; none; connections * tracks]?,
            used: 0,
            table: no_facts(alloc, connections * tracks)?,
            tracks,
        })
    }

    /// How many facts there are.
    pub fn len(&self) -> usize
        ensures len { result ≡ length self.now.entries }
        ensures room { result ≤ self.now.places }
    {
        self.used
    }

    /// The fact of a number, from 0.
    pub fn entry(&self, at: usize) -> Entry
        requires { at < length self.now.entries }
        ensures entry { slice_get self.now.entries at ≡ Some result }
        ensures truth { truth_in self.now.entries result.choice ≡ Some result.truth }
    {
        self.entries[at]
    }

    /// Whether a choice is taken or refused, or `None` where there is no fact about it.
    pub fn fact(&self, choice: Choice) -> Option<bool>
        requires { HasPlace self.now choice }
        ensures value { result ≡ truth_in self.now.entries choice }
        ensures told { Tell (facts_of self.now.entries) choice result }
    {
        self.table[usize::from(choice.connection) * self.tracks + usize::from(choice.track)]
    }

    /// Adds a fact about a choice that has none.
    pub fn put(&mut self, entry: Entry)
        requires place { HasPlace self.old entry.choice }
        requires free { truth_in self.old.entries entry.choice ≡ None }
        ensures { self.new ≡ record self.old { entries = self.old.entries ++ entry ∷ [] } }
    {
        let at = usize::from(entry.choice.connection) * self.tracks
            + usize::from(entry.choice.track);
        self.table[at] = Some(entry.truth);
        self.entries[self.used] = entry;
        self.used += 1;
    }

    /// Takes the last fact back.
    pub fn take_back(&mut self)
        requires { 0 < length self.old.entries }
        ensures { self.new ≡ record self.old { entries = take (length self.old.entries - 1) self.old.entries } }
    {
        self.used -= 1;
        let choice = self.entries[self.used].choice;
        self.table[usize::from(choice.connection) * self.tracks + usize::from(choice.track)] = None;
    }

    /// Takes all facts back, in time in proportion to their number.
    pub fn clear(&mut self)
        ensures { self.new ≡ record self.old { entries = [] } }
    {
        while self.used > 0 {
            self.take_back();
        }
    }
}

// A table without facts.
fn no_facts(alloc: Global, places: usize) -> Result<Vec<Option<bool>>, Memory>
    ensures { IfOk result (λ table. (length table.items ≡ places) × ((at : ℕ) → slice_index_or table.items at None ≡ None)) }
{
    Ok(vec![in alloc; None; places]?)
}
