ghost use Rattle.std.specs.Prelude.{ℕ, List, ◌≡◌, ◌≢◌, ◌<◌, ◌++◌, ◌∷◌, [], length, map, slice_get, slice_index_or, slice_set, Some, All, IfOk, OnOk, IfSome, IfNone, Contains};
ghost use Rattle.act1_device.specs.Sites.{IsSite, ends_of};
ghost use Rattle.act1_device.specs.declared.device.Wire.{Wire};
ghost use Rattle.act1_fuses.specs.Wires.{links_of};
ghost use Rattle.act1_array.specs.ClassSteps.{AreClasses, AreMembers, IsClassOf, IsMerged, IsWhole, marked, renamed};

use act1_base::{Items, Memory};
use act1_device::{Device, Site, Wire};
use indexmap::IndexSet;
use std::alloc::Global;
use std::mem;

/// The wires that the listed antifuses touch, numbered as they are first met, and the class of
/// each: two of them are joined exactly where their classes are the same. `members` has the wires
/// of each class, so that two classes become one in the time of the smaller.
#[derive(Drop)]
pub struct Classes {
    wires: IndexSet<Wire>,
    classes: Vec<usize>,
    members: Vec<Items<usize>>,
}

// The wires of these numbers get the class.
fn mark(classes: &mut Vec<usize>, wires: &[usize], class: usize)
    requires { All (λ wire. wire < length classes.old.items) wires.now }
    ensures { classes.new.items ≡ marked class wires.now classes.old.items }
{
    for wire in wires {
        classes[*wire] = class;
    }
}

// The members of a class, which has none after that.
fn take_members(members: &mut Vec<Items<usize>>, alloc: Global, class: usize) -> Items<usize>
    requires { class < length members.old.items }
    ensures value { result ≡ slice_index_or members.old.items class [] }
    ensures after { members.new.items ≡ slice_set members.old.items class [] }
{
    mem::replace(&mut members[class], Items::new(alloc))
}

// The members of a class become these.
fn put_members(members: &mut Vec<Items<usize>>, class: usize, wires: Items<usize>)
    requires { class < length members.old.items }
    ensures { members.new.items ≡ slice_set members.old.items class wires }
{
    members[class] = wires;
}

impl Classes {
    // No wires.
    fn new(alloc: Global) -> Classes
        ensures whole { IsWhole result }
        ensures classes { AreClasses [] result.wires.keys result.classes.items }
    {
        Classes {
            wires: IndexSet::new(alloc),
            classes: Vec::new(alloc),
            members: Vec::new(alloc),
        }
    }

    // The number of a wire. A wire that is new has a class of its own.
    fn number(&mut self, alloc: Global, wire: Wire) -> Result<usize, Memory>
        requires { IsWhole self.old }
        ensures whole { OnOk result (IsWhole self.new) }
        ensures classes { (links : List (Wire × Wire)) → AreClasses links self.old.wires.keys self.old.classes.items → OnOk result (AreClasses links self.new.wires.keys self.new.classes.items) }
        ensures number { IfOk result (λ i. slice_get self.new.wires.keys i ≡ Some wire) }
        ensures others { (k : ℕ) (w : Wire) → slice_get self.old.wires.keys k ≡ Some w → OnOk result (slice_get self.new.wires.keys k ≡ Some w) }
    {
        let (number, is_new) = self.wires.insert_full(wire)?;
        if is_new {
            self.classes.push(number)?;
            let mut own = Items::new(alloc);
            own.push(number)?;
            self.members.push(own)?;
        }
        Ok(number)
    }

    // The wires of one class go over to another.
    fn merge(&mut self, alloc: Global, from: usize, to: usize) -> Result<(), Memory>
        requires apart { from ≢ to }
        requires from_low { from < length self.old.members.items }
        requires to_low { to < length self.old.members.items }
        requires members { AreMembers self.old.classes.items self.old.members.items }
        ensures wires { self.new.wires.keys ≡ self.old.wires.keys }
        ensures classes { OnOk result (self.new.classes.items ≡ map (renamed from to) self.old.classes.items) }
        ensures members { OnOk result (AreMembers self.new.classes.items self.new.members.items) }
    {
        let moved = take_members(&mut self.members, alloc, from);
        mark(&mut self.classes, moved.as_slice(), to);
        let mut all = take_members(&mut self.members, alloc, to).into_vec();
        all.extend_from_slice(moved.as_slice())?;
        put_members(&mut self.members, to, Items::from_vec(all));
        Ok(())
    }

    // The classes of two wires become one: the smaller goes over.
    fn join(&mut self, alloc: Global, first: usize, second: usize) -> Result<(), Memory>
        requires first_low { first < length self.old.classes.items }
        requires second_low { second < length self.old.classes.items }
        requires members { AreMembers self.old.classes.items self.old.members.items }
        ensures wires { self.new.wires.keys ≡ self.old.wires.keys }
        ensures classes { OnOk result (IsMerged first second self.old.classes.items self.new.classes.items) }
        ensures members { OnOk result (AreMembers self.new.classes.items self.new.members.items) }
    {
        let first = self.classes[first];
        let second = self.classes[second];
        if first == second {
            return Ok(());
        }
        if self.members[first].len() < self.members[second].len() {
            self.merge(alloc, first, second)
        } else {
            self.merge(alloc, second, first)
        }
    }

    // The two wires are joined.
    fn link(&mut self, alloc: Global, a: Wire, b: Wire) -> Result<(), Memory>
        requires { IsWhole self.old }
        ensures whole { OnOk result (IsWhole self.new) }
        ensures classes { (links : List (Wire × Wire)) → AreClasses links self.old.wires.keys self.old.classes.items → OnOk result (AreClasses (links ++ (a, b) ∷ []) self.new.wires.keys self.new.classes.items) }
    {
        let first = self.number(alloc, a)?;
        let second = self.number(alloc, b)?;
        self.join(alloc, first, second)
    }

    /// The classes of the wires that these sites join. It finds no memory, or gives them.
    pub fn of_sites(alloc: Global, device: &Device, sites: &[Site]) -> Result<Classes, Memory>
        requires { All (IsSite device.now) sites.now }
        ensures whole { IfOk result IsWhole }
        ensures classes { IfOk result (λ c. AreClasses (links_of device.now sites.now) c.wires.keys c.classes.items) }
    {
        let mut classes = Classes::new(alloc);
        for site in sites {
            let (a, b) = device.ends(*site);
            classes.link(alloc, a, b)?;
        }
        Ok(classes)
    }

    /// How many wires there are; each class is below that.
    pub fn len(&self) -> usize
        ensures { result ≡ length self.now.wires.keys }
    {
        self.wires.len()
    }

    /// The class of a wire, or `None` for a wire that no listed antifuse touches.
    pub fn class_of(&self, wire: Wire) -> Option<usize>
        requires { IsWhole self.now }
        ensures class { IsClassOf self.now wire result }
        ensures low { IfSome result (λ class. class < length self.now.wires.keys) }
    {
        match self.wires.get_index_of(&wire) {
            Some(number) => Some(self.classes[number]),
            None => None,
        }
    }
}
