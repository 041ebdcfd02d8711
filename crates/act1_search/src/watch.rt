ghost use Rattle.std.specs.Prelude.{ℕ, List, ◌*◌, ◌≡◌, ◌≢◌, ◌<◌, ◌≤◌, ◌+◌, ◌-◌, ◌++◌, ◌∷◌, [], Some, None, true, false, take, length, map, slice_get, MatchOption, IfOk, OnOk, OnErr, ◌↔◌, IsTrue};
ghost use Rattle.act1_channel.specs.declared.problem.Choice.{Choice};
ghost use Rattle.act1_channel.specs.Acceptance.{LeadToConflict, choices_of};
ghost use Rattle.act1_channel.specs.Clauses.{Fact, taken};
ghost use Rattle.act1_channel.specs.Found.{truth_in, IsFor};
ghost use Rattle.act1_search.specs.Closure.{Follows, IsInConflict, HasFactAbout};
ghost use Rattle.act1_channel.specs.declared.problem.Hint.TheVariants as hint;
ghost use Rattle.act1_channel.specs.Assignment.{IsAllowed};
ghost use Rattle.act1_search.specs.Propagation.{AreInside, Grows, IsPending, IsSettled, IsContradicted};
ghost use Rattle.act1_search.specs.Explaining.{AreReasons, AreStepsAllowed, IsLogOf};
ghost use Rattle.act1_search.specs.Trail.{IsTrail};
ghost use Rattle.act1_search.specs.Watched.{Watched};
ghost use Rattle.act1_channel.specs.declared.trail.Entry.{Entry};

use crate::explain::explain;
use crate::propagate::{begin, propagate, take_on};
use act1_base::{Items, Memory};
use act1_channel::{Choice, Entry, Hint, Problem, Step, Trail};
use std::alloc::Global;
use std::marker::Model;

/// Steps and choices, and what follows from them at once under the clauses of a problem.
#[derive(Drop)]
pub struct Watch<'a> {
    problem: &'a Problem,
    alloc: Global,
    trail: Trail,
    chosen: Vec<Choice>,
    marks: Vec<usize>,
    depth: usize,
    steps: Vec<Step>,
    broken: Option<Hint>,
    wanted: Vec<bool>,
}

impl<'a> Model for Watch<'a> {
    ghost use Rattle.std.specs.Prelude.{take, length};
    ghost use Rattle.act1_search.specs.Watched.{Watched};

    ghost Value = { Watched };

    ghost use Rattle.act1_channel.specs.Acceptance.{choices_of};
    ghost use Rattle.act1_search.specs.Watch.{IsWatch, HasRoom, IsLogged};

    ghost view = { λ w. record { problem = w.problem.now; steps = choices_of w.steps.items; chosen = take w.depth w.chosen.items } };

    ghost invariant = { λ w. IsWatch w.problem.now (choices_of w.steps.items) (take w.depth w.chosen.items) w.trail (take w.depth w.marks.items) w.broken × HasRoom w.trail.places (length w.chosen.items) (length w.marks.items) w.depth × IsLogged w.problem.now w.steps.items w.trail.places w.wanted.items };
}

// Takes facts back until so many are left.
fn cut(trail: &mut Trail, left: usize)
    requires { left ≤ length trail.old.entries }
    ensures { trail.new ≡ record trail.old { entries = take left trail.old.entries } }
{
    while trail.len() > left {
        trail.take_back();
    }
}

// The last choice is taken back: the facts before it stay, it is false, and that has its effects.
fn take_back(
    problem: &Problem,
    trail: &mut Trail,
    mark: usize,
    choice: Choice,
    number: u32,
) -> Option<Hint>
    requires size { IsFor problem.now trail.old }
    requires inside { AreInside problem.now trail.old.entries }
    requires mark { mark ≤ length trail.old.entries }
    requires choice { IsAllowed problem.now choice }
    requires free { truth_in (take mark trail.old.entries) choice ≡ None }
    requires pending { IsPending problem.now (take mark trail.old.entries ++ (record { choice = choice; truth = false; why = Some (hint.Step number) }) ∷ []) mark }
    ensures size { IsFor problem.now trail.new }
    ensures grows { Grows problem.now (take mark trail.old.entries ++ (record { choice = choice; truth = false; why = Some (hint.Step number) }) ∷ []) trail.new.entries }
    ensures answer { MatchOption result (IsSettled problem.now trail.new.entries) (IsContradicted problem.now trail.new.entries) }
{
    cut(trail, mark);
    trail.put(Entry {
        choice,
        truth: false,
        why: Some(Hint::Step(number)),
    });
    propagate(problem, trail, mark)
}

// The hints that show the step of the choices that were assumed, where a clause is contradicted, in no more memory
// than they need: they are most of a log.
fn hints_of(
    alloc: Global,
    problem: &Problem,
    steps: &[Step],
    trail: &Trail,
    wanted: &mut Vec<bool>,
    broken: Option<Hint>,
) -> Result<Items<Hint>, Memory>
    requires steps { AreStepsAllowed problem.now (choices_of steps.now) }
    requires reasons { AreReasons problem.now (choices_of steps.now) trail.now.entries }
    requires inside { AreInside problem.now trail.now.entries }
    requires broken { MatchOption broken ⊥ (IsContradicted problem.now trail.now.entries) }
    requires room { length wanted.old.items ≡ length problem.now.connections * length problem.now.tracks }
    ensures room { length wanted.new.items ≡ length wanted.old.items }
    ensures shown { (chosen : List Choice) → IsTrail problem.now (choices_of steps.now) chosen trail.now.entries → IfOk result (λ hints. LeadToConflict problem.now (choices_of steps.now) (map taken chosen) hints) }
{
    match broken {
        Some(broken) => {
            let hints = explain(alloc, problem, steps, trail, wanted.as_mut_slice(), broken)?;
            Items::from_slice(alloc, hints.as_slice())
        }
        None => unreachable!(),
    }
}

impl<'a> Watch<'a> {
    /// No steps and no choices.
    pub fn new(alloc: Global, problem: &'a Problem) -> Result<Watch<'a>, Memory>
        ensures { IfOk result (λ w. w ≡ record { problem = problem.now; steps = []; chosen = [] }) }
    {
        let connections = problem.connections.len();
        let tracks = problem.tracks.len();
        let none = Choice {
            connection: 0,
            track: 0,
        };
        let mut trail = Trail::new(alloc, connections, tracks)?;
        let chosen = vec![in alloc; none; connections * tracks]?;
        let marks = vec![in alloc; 0; connections * tracks]?;
        let wanted = vec![in alloc; false; connections * tracks]?;
        let broken = begin(problem, &mut trail);
        Ok(Watch {
            problem,
            alloc,
            trail,
            chosen,
            marks,
            depth: 0,
            steps: Vec::new(alloc),
            broken,
            wanted,
        })
    }

    /// Whether there is a conflict.
    pub fn conflict(&self) -> bool
        ensures { IsTrue result ↔ IsInConflict self.now.problem self.now.steps self.now.chosen }
    {
        self.broken.is_some()
    }

    /// Whether a choice is true or false, or None where there is no fact about it.
    pub fn fact(&self, choice: Choice) -> Option<bool>
        requires connection { choice.connection < length self.now.problem.connections }
        requires track { choice.track < length self.now.problem.tracks }
        ensures { (IsInConflict self.now.problem self.now.steps self.now.chosen → ⊥) → MatchOption result (HasFactAbout self.now.problem self.now.steps self.now.chosen choice → ⊥) (λ truth. Follows self.now.problem self.now.steps self.now.chosen (record { choice = choice; truth = truth })) }
    {
        self.trail.fact(choice)
    }

    /// Assumes a choice about which there is no fact.
    pub fn assume(&mut self, choice: Choice)
        requires calm { IsInConflict self.old.problem self.old.steps self.old.chosen → ⊥ }
        requires inside { IsAllowed self.old.problem choice }
        requires free { HasFactAbout self.old.problem self.old.steps self.old.chosen choice → ⊥ }
        ensures { self.new ≡ record self.old { chosen = self.old.chosen ++ choice ∷ [] } }
    {
        let from = self.trail.len();
        let problem = self.problem;
        self.broken = take_on(problem, &mut self.trail, choice);
        self.chosen[self.depth] = choice;
        self.marks[self.depth] = from;
        self.depth += 1;
    }

    /// Makes a step of the choices that are in conflict, and takes the last of them back. After `Memory`
    /// all is as before.
    pub fn learn(&mut self) -> Result<(), Memory>
        requires conflict { IsInConflict self.old.problem self.old.steps self.old.chosen }
        requires some { 0 < length self.old.chosen }
        ensures ok { OnOk result (self.new ≡ record self.old { steps = self.old.steps ++ self.old.chosen ∷ []; chosen = take (length self.old.chosen - 1) self.old.chosen }) }
        ensures err { OnErr result (self.new ≡ self.old) }
    {
        if self.steps.len() >= 4_294_967_294 {
            return Err(Memory);
        }
        let hints = hints_of(
            self.alloc,
            self.problem,
            self.steps.as_slice(),
            &self.trail,
            &mut self.wanted,
            self.broken,
        )?;
        let choices = Items::from_slice(self.alloc, &self.chosen[..self.depth])?;
        let number = self.steps.len() as u32;
        let last = self.depth - 1;
        let choice = self.chosen[last];
        let mark = self.marks[last];
        let problem = self.problem;
        self.steps.push(Step { choices, hints })?;
        self.broken = take_back(problem, &mut self.trail, mark, choice, number);
        self.depth = last;
        Ok(())
    }

    /// How many choices there are.
    pub fn depth(&self) -> usize
        ensures { result ≡ length self.now.chosen }
    {
        self.depth
    }

    /// The steps with their hints, and at the end the one without choices, where there is a conflict
    /// without choices.
    pub fn into_log(self) -> Result<Vec<Step>, Memory>
        requires conflict { IsInConflict self.problem self.steps self.chosen }
        requires none { self.chosen ≡ [] }
        ensures { IfOk result (λ log. IsLogOf self.entry.problem self.entry.steps log.items) }
    {
        let Watch {
            problem,
            alloc,
            trail,
            mut steps,
            broken,
            mut wanted,
            ..
        } = self;
        let hints = hints_of(
            alloc,
            problem,
            steps.as_slice(),
            &trail,
            &mut wanted,
            broken,
        )?;
        steps.push(Step {
            choices: Items::new(alloc),
            hints,
        })?;
        Ok(steps)
    }
}
