ghost use Rattle.std.specs.Prelude.{ℕ, List, ◌≡◌, ◌<◌, ◌≤◌, ◌+◌, length, slice_set, slice_index_or, Some, None, IfOk, IfSome};
ghost use Rattle.act1_circuit.specs.declared.circuit.Spot.{Spot};
ghost use Rattle.act1_fuses.specs.declared.fuses.FuseFile.{FuseFile};
ghost use Rattle.act1_fuses.specs.Array.{IsWireOf, out_wire, pad_wire};
ghost use Rattle.act1_array.specs.ClassSteps.{IsWhole};
ghost use Rattle.act1_array.specs.Gives.{source_place};
ghost use Rattle.act1_array.specs.OwnerSteps.{AreOwners, GivesSource, IsIn, pair_with};

use crate::classes::Classes;
use act1_base::Memory;
use act1_circuit::{Source, Spot};
use act1_device::{Line, Wire};
use act1_fuses::{FuseFile, Port};
use std::alloc::Global;

/// Two sources that are joined, the first before the second in the order of sources.
#[derive(Clone, Copy)]
pub struct Pair {
    pub first: Source,
    pub second: Source,
}

/// The least source of each class of wires, and the least pair of sources that are in one class.
#[derive(Drop)]
pub struct Owners {
    owners: Vec<Option<Source>>,
    pair: Option<Pair>,
}

impl Owners {
    // No source has been looked at.
    fn new(alloc: Global, classes: usize) -> Result<Owners, Memory>
        ensures { IfOk result (λ o. (length o.owners.items ≡ classes) × ((class : ℕ) → slice_index_or o.owners.items class None ≡ None) × (o.pair ≡ None)) }
    {
        Ok(Owners {
            owners: vec![in alloc; None; classes]?,
            pair: None,
        })
    }

    // The source of a class, which comes before those that were looked at.
    fn own(&mut self, class: usize, source: Source)
        requires { class < length self.old.owners.items }
        ensures owners { self.new.owners.items ≡ slice_set self.old.owners.items class (Some source) }
        ensures pair { self.new.pair ≡ pair_with source (slice_index_or self.old.owners.items class None) self.old.pair }
    {
        if let Some(second) = self.owners[class] {
            self.pair = Some(Pair {
                first: source,
                second,
            });
        }
        self.owners[class] = Some(source);
    }

    // The source with this wire, which comes before those that were looked at.
    fn add(&mut self, classes: &Classes, source: Source, wire: Wire)
        requires whole { IsWhole classes.now }
        requires all { length self.old.owners.items ≡ length classes.now.wires.keys }
        ensures all { length self.new.owners.items ≡ length classes.now.wires.keys }
        ensures owners { (f : FuseFile) (spots : List Spot) → IsWireOf f spots source wire → AreOwners f spots classes.now (source_place f source + 1) self.old → AreOwners f spots classes.now (source_place f source) self.new }
    {
        if let Some(class) = classes.class_of(wire) {
            self.own(class, source);
        }
    }

    // The modules, from the last on. So each class ends with its least source, and the pair that is
    // found last is the least.
    fn add_modules(&mut self, classes: &Classes, spots: &[Spot])
        requires whole { IsWhole classes.now }
        requires all { length self.old.owners.items ≡ length classes.now.wires.keys }
        requires few { length spots.now ≤ 65536 }
        ensures all { length self.new.owners.items ≡ length classes.now.wires.keys }
        ensures owners { (f : FuseFile) → AreOwners f spots.now classes.now (3 + length f.ins + length spots.now) self.old → AreOwners f spots.now classes.now (3 + length f.ins) self.new }
    {
        let mut number = spots.len();
        while number > 0 {
            number -= 1;
            let Spot { row, column } = spots[number];
            let wire = Wire::Vertical(Line::Out { row, column });
            self.add(classes, Source::Module(number as u16), wire);
        }
    }

    // The inputs, from the last on.
    fn add_inputs(&mut self, classes: &Classes, file: &FuseFile)
        requires whole { IsWhole classes.now }
        requires all { length self.old.owners.items ≡ length classes.now.wires.keys }
        requires few { length file.now.ins ≤ 65536 }
        ensures all { length self.new.owners.items ≡ length classes.now.wires.keys }
        ensures owners { (spots : List Spot) → AreOwners file.now spots classes.now (3 + length file.now.ins) self.old → AreOwners file.now spots classes.now 3 self.new }
    {
        let ins = file.ins.as_slice();
        let mut number = ins.len();
        while number > 0 {
            number -= 1;
            let wire = Wire::Vertical(Line::Pad {
                pad: ins[number].pad,
            });
            self.add(classes, Source::Input(number as u16), wire);
        }
    }

    /// The sources of an array whose modules stand at these spots.
    pub fn of_sources(
        alloc: Global,
        file: &FuseFile,
        spots: &[Spot],
        classes: &Classes,
    ) -> Result<Owners, Memory>
        requires whole { IsWhole classes.now }
        requires few_inputs { length file.now.ins ≤ 65536 }
        requires few_spots { length spots.now ≤ 65536 }
        ensures all { IfOk result (λ o. length o.owners.items ≡ length classes.now.wires.keys) }
        ensures owners { IfOk result (AreOwners file.now spots.now classes.now 0) }
    {
        let mut owners = Owners::new(alloc, classes.len())?;
        owners.add_modules(classes, spots);
        owners.add_inputs(classes, file);
        owners.add(classes, Source::Clock, Wire::Clk);
        owners.add(classes, Source::One, Wire::Vcc);
        owners.add(classes, Source::Zero, Wire::Gnd);
        Ok(owners)
    }

    /// The least pair of sources that are in one class, or `None` if none are.
    pub fn pair(&self) -> Option<Pair>
        ensures { result ≡ self.now.pair }
    {
        self.pair
    }

    /// The least source that is in the class of a wire, or `None` if none is.
    pub fn source_of(&self, classes: &Classes, wire: Wire) -> Option<Source>
        requires whole { IsWhole classes.now }
        requires all { length self.now.owners.items ≡ length classes.now.wires.keys }
        ensures { (f : FuseFile) (spots : List Spot) → AreOwners f spots classes.now 0 self.now → GivesSource f spots classes.now wire result }
    {
        match classes.class_of(wire) {
            Some(class) => self.owners[class],
            None => None,
        }
    }
}
