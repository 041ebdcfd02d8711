use crate::refs::{Branch, Question, Ref};
use indexmap::{IndexMap, IndexSet};
use std::alloc::Global;
use std::marker::Model;

/// Reduced ordered binary decision diagrams that share their forks, after Bryant. A contract sees them
/// as the list of their forks, the oldest first.
///
/// Parts of a fork are older than it, variables rise from a fork to its parts, the parts of a fork
/// differ, and no two forks are alike. So two refs are the same exactly where they have the same value
/// at all inputs. Each call keeps what earlier refs mean, also a call that finds no memory.
#[derive(Drop)]
pub struct Diagrams {
    pub(crate) forks: IndexSet<Branch>,
    pub(crate) memo: IndexMap<Question, Ref>,
    pub(crate) alloc: Global,
}

impl Model for Diagrams {
    ghost use Rattle.std.specs.Prelude.{List};
    ghost use Rattle.act1_dd.specs.declared.refs.Branch.{Branch as Fork};
    ghost use Rattle.act1_dd.specs.Diagram.{IsReduced};
    ghost use Rattle.act1_dd.specs.MemoSteps.{AreAnswers};

    ghost Value = { List Fork };

    ghost view = { λ a. a.forks.keys };

    ghost invariant = { λ a. IsReduced a.forks.keys × AreAnswers a.forks.keys a.memo.entries };
}

impl Diagrams {
    ghost use Rattle.std.specs.Prelude.{◌≡◌, ◌<◌, [], length};
    ghost use Rattle.act1_dd.specs.declared.refs.Ref.TheVariants as ref;
    ghost use Rattle.act1_dd.specs.Inputs.{inputs_of};
    ghost use Rattle.act1_dd.specs.Diagram.{IsBranchOf, IsReduced, IsRef, IsWithin, value_at};
    ghost use Rattle.act1_dd.specs.Steps.{IsNext};

    /// No forks; it takes no memory.
    pub fn new(alloc: Global) -> Diagrams
        ensures { result ≡ [] }
    {
        Diagrams {
            forks: IndexSet::new(alloc),
            memo: IndexMap::new(alloc),
            alloc,
        }
    }

    /// A law: what the forks keep.
    pub fn are_reduced(&self)
        ensures { IsReduced self.now }
    {
        let _ = &self.forks;
    }

    /// The fork of a number: its variable and its two parts. It takes no memory.
    pub fn branch(&self, node: usize) -> Branch
        requires { node < length self.now }
        ensures { IsBranchOf self.now node result }
    {
        match self.forks.get_index(node) {
            Some(branch) => *branch,
            None => unreachable!(),
        }
    }

    // The part of a fork that the values choose.
    fn next(&self, node: usize, values: &[bool]) -> Ref
        requires node { node < length self.now }
        requires within { IsWithin self.now (ref.Node node) (length values.now) }
        ensures { IsNext self.now node values.now result }
    {
        self.are_reduced();
        let branch = self.branch(node);
        if values[branch.var as usize] {
            branch.high
        } else {
            branch.low
        }
    }

    /// The value of a diagram at the values of the first variables, which are all that it depends on.
    /// It takes no memory.
    pub fn value(&self, f: Ref, values: &[bool]) -> bool
        requires f { IsRef self.now f }
        requires within { IsWithin self.now f (length values.now) }
        ensures { result ≡ value_at self.now f (inputs_of values.now) }
    {
        let mut at = f;
        loop {
            match at {
                Ref::Zero => return false,
                Ref::One => return true,
                Ref::Node(node) => at = self.next(node, values),
            }
        }
    }
}
