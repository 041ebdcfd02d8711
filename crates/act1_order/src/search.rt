ghost use Rattle.std.specs.Prelude.{ℕ, ◌≡◌, ◌<◌, ◌≤◌, ◌-◌, ◌++◌, ◌∷◌, [], ◌↔◌, IsTrue, take, replicate, All, IfOk, OnOk, Some, length, slice_get, slice_set};
ghost use Rattle.act1_order.specs.Order.{AreReads};
ghost use Rattle.act1_order.specs.ClosingSteps.{IsClosingOrder};
ghost use Rattle.act1_order.specs.SearchSteps.{HasState, IsNextRead, IsSearch, IsStep, IsVisit};
ghost use Rattle.act1_order.specs.declared.search.State.TheVariants as state;

use crate::graph::reads_of;
use act1_base::{Items, Memory};
use std::alloc::Global;

/// How far a search has come with a vertex.
#[derive(Clone, Copy, PartialEq, Eq)]
pub enum State {
    /// The search hasn't come to it.
    New,
    /// It is on the path of the search.
    Open,
    /// It stands in the order.
    Placed,
}

/// A search that goes from a vertex on to those that it reads, and places each after those that it went
/// on to. Of each vertex it keeps how many of its first reads it has passed since it has come to them,
/// so that it looks at each edge once.
#[derive(Drop)]
pub struct Search {
    states: Vec<State>,
    passed: Vec<usize>,
    path: Vec<u16>,
    order: Vec<u16>,
}

// The place of the first new read, where those before this place aren't new.
fn first_new(states: &[State], reads: &[u16], from: usize) -> usize
    requires inside { All (λ w. w < length states.now) reads.now }
    requires met { (k w : ℕ) → k < from → slice_get reads.now k ≡ Some w → HasState states.now w state.New → ⊥ }
    ensures met { (k w : ℕ) → k < result → slice_get reads.now k ≡ Some w → HasState states.now w state.New → ⊥ }
    ensures next { (w : ℕ) → slice_get reads.now result ≡ Some w → HasState states.now w state.New }
{
    let mut at = from;
    while at < reads.len() && !has_state(states, reads[at], State::New) {
        at += 1;
    }
    at
}

// Whether the search has come so far with a vertex.
fn has_state(states: &[State], vertex: u16, state: State) -> bool
    requires { vertex < length states.now }
    ensures { IsTrue result ↔ HasState states.now vertex state }
{
    states[usize::from(vertex)] == state
}

// The read at a place, or none past the end.
fn read_at(reads: &[u16], at: usize) -> Option<u16>
    ensures { result ≡ slice_get reads.now at }
{
    reads.get(at).copied()
}

impl Search {
    // A search that has come to none of so many vertices.
    fn new(alloc: Global, vertices: usize) -> Result<Search, Memory>
        ensures { IfOk result (λ s. (s.states.items ≡ replicate vertices state.New) × (s.passed.items ≡ replicate vertices 0) × (s.path.items ≡ []) × (s.order.items ≡ [])) }
    {
        Ok(Search {
            states: vec![in alloc; State::New; vertices]?,
            passed: vec![in alloc; 0; vertices]?,
            path: Vec::new(alloc),
            order: Vec::new(alloc),
        })
    }

    // The path goes on to a vertex.
    fn open(&mut self, vertex: u16) -> Result<(), Memory>
        requires { vertex < length self.old.states.items }
        ensures states { OnOk result (self.new.states.items ≡ slice_set self.old.states.items vertex state.Open) }
        ensures path { OnOk result (self.new.path.items ≡ self.old.path.items ++ vertex ∷ []) }
        ensures passed { self.new.passed.items ≡ self.old.passed.items }
        ensures order { self.new.order.items ≡ self.old.order.items }
    {
        self.states[usize::from(vertex)] = State::Open;
        self.path.push(vertex)?;
        Ok(())
    }

    // The last vertex of the path leaves it and is placed.
    fn place(&mut self, vertex: u16) -> Result<(), Memory>
        requires { vertex < length self.old.states.items }
        ensures states { OnOk result (self.new.states.items ≡ slice_set self.old.states.items vertex state.Placed) }
        ensures path { self.new.path.items ≡ take (length self.old.path.items - 1) self.old.path.items }
        ensures passed { self.new.passed.items ≡ self.old.passed.items }
        ensures order { OnOk result (self.new.order.items ≡ self.old.order.items ++ vertex ∷ []) }
    {
        self.states[usize::from(vertex)] = State::Placed;
        let _ = self.path.pop();
        self.order.push(vertex)?;
        Ok(())
    }

    // The first new read of a vertex, with the place where it stands noted.
    fn next_read(&mut self, reads: &[Items<u16>], vertex: u16) -> Option<u16>
        requires inside { AreReads reads.now }
        requires search { IsSearch reads.now self.old }
        requires low { vertex < length reads.now }
        ensures search { IsSearch reads.now self.new }
        ensures states { self.new.states.items ≡ self.old.states.items }
        ensures path { self.new.path.items ≡ self.old.path.items }
        ensures next { IsNextRead reads.now self.old.states.items vertex result }
    {
        let own = reads_of(reads, vertex);
        let at = first_new(&self.states, own, self.passed[usize::from(vertex)]);
        self.passed[usize::from(vertex)] = at;
        read_at(own, at)
    }

    // The last vertex of the path.
    fn last(&self) -> Option<u16>
        ensures { result ≡ slice_get self.now.path.items (length self.now.path.items - 1) }
    {
        self.path.last().copied()
    }

    // One step on from the last vertex of the path: to a new read of it, or, where none is new, to its
    // own place.
    fn step(&mut self, reads: &[Items<u16>], vertex: u16) -> Result<(), Memory>
        requires inside { AreReads reads.now }
        requires search { IsSearch reads.now self.old }
        requires last { slice_get self.old.path.items (length self.old.path.items - 1) ≡ Some vertex }
        ensures { OnOk result (IsStep reads.now self.old self.new) }
    {
        match self.next_read(reads, vertex) {
            None => {
                self.place(vertex)?;
                Ok(())
            }
            Some(next) => {
                self.open(next)?;
                Ok(())
            }
        }
    }

    // The search from a vertex on.
    fn visit(&mut self, reads: &[Items<u16>], root: u16) -> Result<(), Memory>
        requires inside { AreReads reads.now }
        requires search { IsSearch reads.now self.old }
        requires none_open { self.old.path.items ≡ [] }
        requires low { root < length reads.now }
        ensures { OnOk result (IsVisit reads.now root self.old self.new) }
    {
        if has_state(&self.states, root, State::Placed) {
            return Ok(());
        }
        self.open(root)?;
        while let Some(vertex) = self.last() {
            self.step(reads, vertex)?;
        }
        Ok(())
    }
}

/// The order in which a search closes the vertices: each stands after those that it reads, unless one
/// of these depends on it. It takes time in proportion to the vertices and edges, and memory in
/// proportion to the vertices.
pub fn order_of(alloc: Global, reads: &[Items<u16>]) -> Result<Items<u16>, Memory>
    requires few { length reads.now ≤ 65535 }
    requires inside { AreReads reads.now }
    ensures { IfOk result (IsClosingOrder reads.now) }
{
    let mut search = Search::new(alloc, reads.len())?;
    for vertex in 0..reads.len() {
        search.visit(reads, vertex as u16)?;
    }
    Ok(Items::from_vec(search.order))
}
