use crate::diagrams::Diagrams;
use crate::refs::Ref;

impl Diagrams {
    ghost use Rattle.std.specs.Prelude.{ℕ, ◌≡◌, ◌≢◌, ◌<◌, Some, slice_get};
    ghost use Rattle.act1_dd.specs.declared.refs.Branch.{Branch as Fork};
    ghost use Rattle.act1_dd.specs.declared.refs.Ref.TheVariants as ref;
    ghost use Rattle.act1_dd.specs.Inputs.{Inputs, Function};
    ghost use Rattle.act1_dd.specs.Forks.{IsForkOf, IsSame};
    ghost use Rattle.act1_dd.specs.Diagram.{IsRef, IsUnder, IsWithin, value_at};

    /// A law: two diagrams that have the same value at all inputs are the same ref, and two different
    /// refs have different values at some inputs.
    pub fn refs_are_functions(&self, f: Ref, g: Ref)
        requires f { IsRef self.now f }
        requires g { IsRef self.now g }
        ensures same { ((x : Inputs) → value_at self.now f x ≡ value_at self.now g x) → f ≡ g }
        ensures differ { f ≢ g → (x : Inputs) × (value_at self.now f x ≢ value_at self.now g x) }
    {
        self.are_reduced();
        let _ = (f, g);
    }

    /// A law: the forks under a diagram are the forks of its function. Each has the value of a
    /// function that comes from that of the diagram by fixing the variables below one on which it
    /// depends, and each such function is the value of one of them.
    pub fn forks_are_functions(&self, f: Ref)
        requires { IsRef self.now f }
        ensures each { (k : ℕ) → IsUnder self.now f (ref.Node k) → IsForkOf (value_at self.now f) (value_at self.now (ref.Node k)) }
        ensures all { (g : Function) → IsForkOf (value_at self.now f) g → (k : ℕ) × IsUnder self.now f (ref.Node k) × IsSame g (value_at self.now (ref.Node k)) }
    {
        self.are_reduced();
        let _ = f;
    }

    /// A law: a fork whose value depends on the first n variables alone asks one of them, and so do
    /// its parts.
    pub fn parts_are_within(&self)
        ensures { (k n : ℕ) (b : Fork) → slice_get self.now k ≡ Some b → IsWithin self.now (ref.Node k) n → (b.var < n) × IsWithin self.now b.low n × IsWithin self.now b.high n }
    {
        self.are_reduced();
    }
}
