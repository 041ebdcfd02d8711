ghost use Rattle.std.specs.Prelude.{◌≡◌, [], ◌∷◌, ◌++◌, true, not, ◌||◌, Ok, IfOk};
ghost use Rattle.act1_fuses.specs.Given.{given_with, is_own_name, no_names, is_among, is_clock};

use crate::form::FuseLine;
use act1_base::{HashSeed, Memory, Name};
use indexmap::IndexSet;
use std::alloc::Global;
use std::marker::Model;

/// Names, each once, in the order in which they were given.
#[derive(Drop)]
pub struct NameSet {
    set: IndexSet<Name, HashSeed>,
}

impl Model for NameSet {
    ghost use Rattle.std.specs.Prelude.{List, ℕ};

    ghost Value = { List (List ℕ) };

    ghost view = { λ names. names.set.keys };
}

impl NameSet {
    // No names.
    fn new(alloc: Global, seed: HashSeed) -> NameSet
        ensures { result ≡ [] }
    {
        NameSet {
            set: IndexSet::with_hasher(alloc, seed),
        }
    }

    // Whether the name is one of these.
    #[tactic(auto, using(crate::proofs::GivenNames::turned))]
    fn has(&self, name: &Name) -> bool
        ensures { result ≡ is_among name.now self.now }
    {
        self.set.contains(name)
    }

    // Whether the name is new. It is one of these then.
    #[tactic(auto, using(crate::proofs::GivenNames::turned))]
    fn add(&mut self, name: &Name) -> Result<bool, Memory>
        ensures fresh { IfOk result (λ is_new. is_new ≡ not (is_among name.now self.old)) }
        ensures names { result ≡ Ok true → self.new ≡ self.old ++ name.now ∷ [] }
    {
        let name = name.clone()?;
        match self.set.insert_full(name) {
            Ok((_, is_new)) => Ok(is_new),
            Err(_) => Err(Memory),
        }
    }
}

/// The names that the lines of an antifuse file gave, by what they name.
#[derive(Drop)]
pub struct GivenNames {
    /// Those of inputs.
    pub ins: NameSet,
    /// Those of outputs.
    pub outs: NameSet,
    /// Those of latches.
    pub starts: NameSet,
}

// Whether the file has a clock of this name.
pub fn is_clock(clock: &Option<Name>, name: &Name) -> bool
    ensures { result ≡ is_clock clock.now name.now }
{
    match clock {
        Some(clock) => clock.as_bytes() == name.as_bytes(),
        None => false,
    }
}

impl GivenNames {
    /// No names, in tables that hash by `seed`.
    pub fn new(alloc: Global, seed: HashSeed) -> GivenNames
        ensures { result ≡ no_names }
    {
        GivenNames {
            ins: NameSet::new(alloc, seed),
            outs: NameSet::new(alloc, seed),
            starts: NameSet::new(alloc, seed),
        }
    }

    /// Whether what a line names may have the name that the line gives. The name counts as given
    /// then. It is true of a line that gives no name which is compared with others.
    pub fn take(&mut self, clock: &Option<Name>, line: &FuseLine) -> Result<bool, Memory>
        ensures own { IfOk result (λ is_own. is_own ≡ is_own_name self.old clock.now line.now) }
        ensures given { result ≡ Ok true → self.new ≡ given_with self.old line.now }
    {
        match line {
            FuseLine::In { name, .. } => take_name(&mut self.ins, clock, name),
            FuseLine::Out { name, .. } => take_name(&mut self.outs, clock, name),
            FuseLine::Start { name, .. } => {
                if self.ins.has(name) {
                    return Ok(false);
                }
                take_name(&mut self.starts, clock, name)
            }
            _ => Ok(true),
        }
    }
}

// Whether the name is new among these and isn't the clock's.
fn take_name(names: &mut NameSet, clock: &Option<Name>, name: &Name) -> Result<bool, Memory>
    ensures own { IfOk result (λ is_own. is_own ≡ not (is_clock clock.now name.now || is_among name.now names.old)) }
    ensures names { result ≡ Ok true → names.new ≡ names.old ++ name.now ∷ [] }
{
    if is_clock(clock, name) {
        return Ok(false);
    }
    names.add(name)
}
