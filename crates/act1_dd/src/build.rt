use crate::diagrams::Diagrams;
use crate::number::{number_of, plain_choice};
use crate::refs::{Branch, Choice, Question, Ref, Split};
use act1_base::Memory;

impl Diagrams {
    ghost use Rattle.std.specs.Prelude.{◌≡◌, ◌<◌, ◌≤◌, ◌+◌, ◌⊎◌, IfOk, IfSome};
    ghost use Rattle.act1_dd.specs.Diagram.{Keeps, IsChoice, IsForkInto, IsFrom, IsRef, IsRestriction, IsVariable};
    ghost use Rattle.act1_dd.specs.MemoSteps.{IsAnswer};
    ghost use Rattle.act1_dd.specs.Steps.{AreRefs, HasVariable, IsFirst, IsNode, IsPart, IsSide, IsSplit};

    // The fork of a variable and two parts. A fork whose parts are the same is that part.
    pub(crate) fn fork(&mut self, var: u8, low: Ref, high: Ref) -> Result<Ref, Memory>
        requires low { IsRef self.old low }
        requires high { IsRef self.old high }
        requires low_later { IsFrom self.old (var + 1) low }
        requires high_later { IsFrom self.old (var + 1) high }
        ensures keeps { Keeps self.old self.new }
        ensures is_ref { IfOk result (IsRef self.new) }
        ensures later { IfOk result (IsFrom self.new var) }
        ensures value { IfOk result (IsForkInto self.new var low high) }
    {
        if low == high {
            return Ok(low);
        }
        let number = number_of(&mut self.forks, Branch { var, low, high })?;
        Ok(Ref::Node(number))
    }

    // The answer to a question that was asked before.
    fn answer(&self, question: Question) -> Option<Ref>
        ensures { IfSome result (IsAnswer self.now question) }
    {
        self.memo.get(&question).copied()
    }

    // Keeps the answer to a question.
    fn note(&mut self, question: Question, answer: Ref) -> Result<(), Memory>
        requires { IsAnswer self.old question answer }
        ensures { self.new ≡ self.old }
    {
        self.memo.insert(question, answer)?;
        Ok(())
    }

    // What is left of a diagram where the variable, which comes before its others, has the value.
    fn part(&self, r: Ref, var: u8, side: bool) -> Ref
        requires is_ref { IsRef self.now r }
        requires from { IsFrom self.now var r }
        ensures { IsPart self.now var side r result }
    {
        self.are_reduced();
        match r {
            Ref::Node(node) => {
                let branch = self.branch(node);
                if branch.var != var {
                    return r;
                }
                if side { branch.high } else { branch.low }
            }
            _ => r,
        }
    }

    // The variable of a diagram if it is below another one, and else that one.
    fn variable_up_to(&self, r: Ref, most: u8) -> u8
        requires { IsRef self.now r }
        ensures most { result ≤ most }
        ensures from { IsFrom self.now result r }
        ensures one { (result ≡ most) ⊎ HasVariable self.now result r }
    {
        match r {
            Ref::Node(node) => {
                let var = self.branch(node).var;
                if var < most { var } else { most }
            }
            _ => most,
        }
    }

    // The first variable of a choice.
    fn first_variable(&self, choice: Choice) -> u8
        requires refs { AreRefs self.now choice }
        requires test { IsNode choice.test }
        ensures { IsFirst self.now choice result }
    {
        let Choice { test, yes, no } = choice;
        match test {
            Ref::Node(node) => {
                let var = self.branch(node).var;
                self.variable_up_to(no, self.variable_up_to(yes, var))
            }
            _ => unreachable!(),
        }
    }

    // What is left of a choice where its first variable has the value.
    fn side(&self, choice: Choice, var: u8, value: bool) -> Choice
        requires refs { AreRefs self.now choice }
        requires first { IsFirst self.now choice var }
        ensures { IsSide self.now var value choice result }
    {
        Choice {
            test: self.part(choice.test, var, value),
            yes: self.part(choice.yes, var, value),
            no: self.part(choice.no, var, value),
        }
    }

    // The first variable of a choice, and its two sides.
    fn split(&self, choice: Choice) -> Split
        requires refs { AreRefs self.now choice }
        requires test { IsNode choice.test }
        ensures { IsSplit self.now choice result }
    {
        let var = self.first_variable(choice);
        Split {
            var,
            low: self.side(choice, var, false),
            high: self.side(choice, var, true),
        }
    }

    /// The choice between two diagrams by a third: `g` where `f` is 1, and `h` where it is 0. The memo
    /// keeps each result, so that no choice is made twice.
    pub fn ite(&mut self, f: Ref, g: Ref, h: Ref) -> Result<Ref, Memory>
        requires f { IsRef self.old f }
        requires g { IsRef self.old g }
        requires h { IsRef self.old h }
        ensures keeps { Keeps self.old self.new }
        ensures is_ref { IfOk result (IsRef self.new) }
        ensures value { IfOk result (IsChoice self.new f g h) }
    {
        let choice = Choice {
            test: f,
            yes: g,
            no: h,
        };
        if let Some(r) = plain_choice(choice) {
            return Ok(r);
        }
        let question = Question::Choose(choice);
        if let Some(r) = self.answer(question) {
            return Ok(r);
        }
        self.are_reduced();
        let Split { var, low, high } = self.split(choice);
        let zero = self.ite(low.test, low.yes, low.no)?;
        let one = self.ite(high.test, high.yes, high.no)?;
        self.are_reduced();
        let r = self.fork(var, zero, one)?;
        self.note(question, r)?;
        Ok(r)
    }

    /// The diagram with a fixed value for one variable. The memo keeps each result.
    pub fn restrict(&mut self, f: Ref, var: u8, value: bool) -> Result<Ref, Memory>
        requires { IsRef self.old f }
        ensures keeps { Keeps self.old self.new }
        ensures is_ref { IfOk result (IsRef self.new) }
        ensures value { IfOk result (IsRestriction self.new f var value) }
    {
        let node = match f {
            Ref::Node(node) => node,
            _ => return Ok(f),
        };
        self.are_reduced();
        let branch = self.branch(node);
        if branch.var > var {
            return Ok(f);
        }
        if branch.var == var {
            return Ok(if value { branch.high } else { branch.low });
        }
        let question = Question::Restrict { of: f, var, value };
        if let Some(r) = self.answer(question) {
            return Ok(r);
        }
        let zero = self.restrict(branch.low, var, value)?;
        let one = self.restrict(branch.high, var, value)?;
        self.are_reduced();
        let r = self.fork(branch.var, zero, one)?;
        self.note(question, r)?;
        Ok(r)
    }

    /// The diagram of one variable.
    pub fn variable(&mut self, var: u8) -> Result<Ref, Memory>
        ensures keeps { Keeps self.old self.new }
        ensures is_ref { IfOk result (IsRef self.new) }
        ensures value { IfOk result (IsVariable self.new var) }
    {
        self.fork(var, Ref::Zero, Ref::One)
    }
}
