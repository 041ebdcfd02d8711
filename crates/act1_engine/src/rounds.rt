ghost use Rattle.std.specs.Prelude.{◌≡◌, ◌≢◌, ℕ, ◌+◌, ◌*◌, ◌<◌, ◌≤◌, ◌^◌, length, IfSome, IfNone};
ghost use Rattle.act1_circuit.specs.Firing.{site_order, site_wave};
ghost use Rattle.act1_engine.specs.Slots.{entry, IsLinked};
ghost use Rattle.act1_engine.specs.Turns.{gives, turn, turn_all, value, IsStill, IsLeastUnstill};
ghost use Rattle.act1_engine.specs.Marking.{mark, AreMarksAt, AreUnmarked, IsFirstMarked, IsQuiet};
ghost use Rattle.act1_engine.specs.Rounds.{IsTable};

use crate::marks::{Marks, clear_mark, first_marked};
use crate::setting::set_value;
use crate::wiring::Wiring;
use act1_logic::module_value;

// The value at a pin's slot.
fn pin_value(slots: &[u32], values: &[bool], pin: usize) -> bool
    requires low { pin < length slots.now }
    requires within { entry slots.now pin < length values.now }
    ensures { result ≡ value values.now (entry slots.now pin) }
{
    values[slots[pin] as usize]
}

// What a module gives at the values.
fn given(slots: &[u32], values: &[bool], module: usize) -> bool
    requires low { 8 * «module» + 8 ≤ length slots.now }
    requires within { (pin : ℕ) → pin < length slots.now → entry slots.now pin < length values.now }
    ensures { result ≡ gives slots.now values.now «module» }
{
    let first = 8 * module;
    module_value([
        pin_value(slots, values, first),
        pin_value(slots, values, first + 1),
        pin_value(slots, values, first + 2),
        pin_value(slots, values, first + 3),
        pin_value(slots, values, first + 4),
        pin_value(slots, values, first + 5),
        pin_value(slots, values, first + 6),
        pin_value(slots, values, first + 7),
    ])
}

// A marked module has its turn: it fires, and loses its mark, unless it reads itself and its bit
// changes. Its readers are marked where its bit changes.
fn fire_marked(
    wiring: &Wiring,
    values: &mut Vec<bool>,
    marks: &mut Marks,
    modules: usize,
    from: usize,
    module: usize,
)
    requires table { IsTable modules wiring.now values.old.items }
    requires marks { AreMarksAt modules from marks.old }
    requires first { IsFirstMarked marks.old.words.items from «module» }
    requires quiet { IsQuiet wiring.now.slots.items values.old.items marks.old.words.items modules }
    ensures fires { values.new.items ≡ turn wiring.now.slots.items values.old.items «module» }
    ensures table { IsTable modules wiring.now values.new.items }
    ensures marks { AreMarksAt modules («module» + 1) marks.new }
    ensures quiet { IsQuiet wiring.now.slots.items values.new.items marks.new.words.items modules }
{
    clear_mark(&mut marks.words, module);
    let bit = given(&wiring.slots, values, module);
    set_value(wiring, values, marks, module, bit, module + 1);
}

// One round: the marked modules have their turns in site order, which leaves what firing all modules
// in site order does. What is marked at a module that the round has passed is left for the next.
fn fire_round(wiring: &Wiring, values: &mut Vec<bool>, marks: &mut Marks, modules: usize)
    requires table { IsTable modules wiring.now values.old.items }
    requires marks { AreMarksAt modules modules marks.old }
    requires quiet { IsQuiet wiring.now.slots.items values.old.items marks.old.words.items modules }
    ensures fires { values.new.items ≡ turn_all wiring.now.slots.items values.old.items (site_order modules) }
    ensures table { IsTable modules wiring.now values.new.items }
    ensures marks { AreMarksAt modules modules marks.new }
    ensures quiet { IsQuiet wiring.now.slots.items values.new.items marks.new.words.items modules }
{
    let mut from = marks.low;
    marks.end = marks.high;
    marks.low = modules;
    marks.high = 0;
    while let Some(module) = first_marked(&marks.words, from, marks.end) {
        fire_marked(wiring, values, marks, modules, from, module);
        from = module + 1;
    }
}

// The least module whose firing changes its value: only a marked one can be.
fn unrest(wiring: &Wiring, values: &[bool], marks: &Marks, modules: usize) -> Option<u16>
    requires table { IsTable modules wiring.now values.now }
    requires few { modules < 2 ^ 16 }
    requires marks { AreMarksAt modules modules marks.now }
    requires quiet { IsQuiet wiring.now.slots.items values.now marks.now.words.items modules }
    ensures none { IfNone result (IsStill wiring.now.slots.items values.now modules) }
    ensures some { IfSome result (IsLeastUnstill wiring.now.slots.items values.now modules) }
{
    let mut next = marks.low;
    while let Some(module) = first_marked(&marks.words, next, marks.high) {
        if given(&wiring.slots, values, module) != values[module] {
            return Some(module as u16);
        }
        next = module + 1;
    }
    None
}

/// Fires a wave of as many rounds as there are modules, each in site order, and looks for the least
/// module that doesn't rest. Where no module is marked, none changes any more. It takes no memory,
/// and time for what changes alone.
pub fn fire_wave(
    wiring: &Wiring,
    values: &mut Vec<bool>,
    marks: &mut Marks,
    modules: usize,
) -> Option<u16>
    requires table { IsTable modules wiring.now values.old.items }
    requires few { modules < 2 ^ 16 }
    requires marks { AreMarksAt modules modules marks.old }
    requires quiet { IsQuiet wiring.now.slots.items values.old.items marks.old.words.items modules }
    ensures wave { values.new.items ≡ turn_all wiring.now.slots.items values.old.items (site_wave modules) }
    ensures marks { AreMarksAt modules modules marks.new }
    ensures quiet { IsQuiet wiring.now.slots.items values.new.items marks.new.words.items modules }
    ensures none { IfNone result (IsStill wiring.now.slots.items values.new.items modules) }
    ensures some { IfSome result (IsLeastUnstill wiring.now.slots.items values.new.items modules) }
{
    for _round in 0..modules {
        if marks.low >= marks.high {
            return None;
        }
        fire_round(wiring, values, marks, modules);
    }
    unrest(wiring, values, marks, modules)
}
