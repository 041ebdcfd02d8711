ghost use Rattle.std.specs.Prelude.{IfSome};
ghost use Rattle.act1_dd.specs.Diagram.{IsRef, Keeps};

use crate::covers::{MOST_FORKS, cover_of};
use crate::input::{netlist_of, variable};
use act1_blif::Blif;
use act1_dd::{Diagrams, Ref};
use std::alloc::Global;
use std::fmt::Write;
use std::rt::Files;

// The diagram of a netlist's first cover, among others.
fn diagram_of(diagrams: &mut Diagrams, netlist: &Blif) -> Option<Ref>
    ensures keeps { Keeps diagrams.old diagrams.new }
    ensures is_ref { IfSome result (IsRef diagrams.new) }
{
    let cover = cover_of(netlist)?;
    diagrams.from_cover(cover, MOST_FORKS).ok()
}

// The diagram of the first cover of a BLIF file, among others.
fn diagram_under<R: Files>(
    rt: &R,
    alloc: Global,
    diagrams: &mut Diagrams,
    name: &str,
) -> Option<Ref>
    ensures keeps { Keeps diagrams.old diagrams.new }
    ensures is_ref { IfSome result (IsRef diagrams.new) }
{
    let netlist = netlist_of(rt, alloc, name)?;
    diagram_of(diagrams, &netlist)
}

// Whether the covers of two files have one diagram.
fn are_same<R: Files>(
    rt: &R,
    alloc: Global,
    diagrams: &mut Diagrams,
    names: [&str; 2],
) -> Option<bool> {
    let one = diagram_under(rt, alloc, diagrams, names[0])?;
    let other = diagram_under(rt, alloc, diagrams, names[1])?;
    Some(one == other)
}

/// The row `same BLIF BLIF`.
pub fn same_row<R: Files>(rt: &R, alloc: Global, words: &[&str], text: &mut String) -> Option<()> {
    let [one, other] = words else {
        return None;
    };
    let mut diagrams = Diagrams::new(alloc);
    let are_same = are_same(rt, alloc, &mut diagrams, [*one, *other])?;
    writeln!(text, "{are_same}").ok()
}

// Whether the cover of the first file where the variable is 1, and that of the second where it is 0, is that
// of the third.
fn is_choice<R: Files>(
    rt: &R,
    alloc: Global,
    diagrams: &mut Diagrams,
    variable: u8,
    names: [&str; 3],
) -> Option<bool> {
    let whole = diagram_under(rt, alloc, diagrams, names[2])?;
    let test = diagrams.variable(variable).ok()?;
    let high = diagram_under(rt, alloc, diagrams, names[0])?;
    let low = diagram_under(rt, alloc, diagrams, names[1])?;
    Some(diagrams.ite(test, high, low).ok()? == whole)
}

/// The row `choice V BLIF BLIF BLIF`.
pub fn choice_row<R: Files>(
    rt: &R,
    alloc: Global,
    words: &[&str],
    text: &mut String,
) -> Option<()> {
    let [number, high, low, whole] = words else {
        return None;
    };
    let number = variable(number)?;
    let mut diagrams = Diagrams::new(alloc);
    let is_choice = is_choice(rt, alloc, &mut diagrams, number, [*high, *low, *whole])?;
    writeln!(text, "{is_choice}").ok()
}

// Whether the cover of the first file, with the variable fixed, is that of the second.
fn is_fixed<R: Files>(
    rt: &R,
    alloc: Global,
    diagrams: &mut Diagrams,
    variable: u8,
    value: bool,
    names: [&str; 2],
) -> Option<bool> {
    let part = diagram_under(rt, alloc, diagrams, names[1])?;
    let whole = diagram_under(rt, alloc, diagrams, names[0])?;
    Some(diagrams.restrict(whole, variable, value).ok()? == part)
}

/// The row `fixed BLIF V B BLIF`.
pub fn fixed_row<R: Files>(rt: &R, alloc: Global, words: &[&str], text: &mut String) -> Option<()> {
    let [whole, number, value, part] = words else {
        return None;
    };
    let number = variable(number)?;
    let mut diagrams = Diagrams::new(alloc);
    let names = [*whole, *part];
    let is_fixed = is_fixed(rt, alloc, &mut diagrams, number, *value == "1", names)?;
    writeln!(text, "{is_fixed}").ok()
}

// What a part of a diagram is.
fn part(part: Ref) -> &'static str {
    match part {
        Ref::Zero => "0",
        Ref::One => "1",
        Ref::Node(_) => "a fork",
    }
}

// Adds the variable that a diagram asks first, and its two parts, or the constant that it is.
fn add_root(diagrams: &Diagrams, f: Ref, text: &mut String) -> Option<()>
    requires { IsRef diagrams.now f }
{
    match f {
        Ref::Node(node) => {
            let root = diagrams.branch(node);
            let (low, high) = (part(root.low), part(root.high));
            writeln!(text, "i{}: {low}, {high}", root.var).ok()
        }
        constant => writeln!(text, "{}", part(constant)).ok(),
    }
}

// Adds the root of the diagram of a file's cover.
fn add_root_of<R: Files>(
    rt: &R,
    alloc: Global,
    diagrams: &mut Diagrams,
    name: &str,
    text: &mut String,
) -> Option<()> {
    let f = diagram_under(rt, alloc, diagrams, name)?;
    add_root(diagrams, f, text)
}

/// The row `root BLIF`.
pub fn root_row<R: Files>(rt: &R, alloc: Global, words: &[&str], text: &mut String) -> Option<()> {
    let [blif] = words else {
        return None;
    };
    let mut diagrams = Diagrams::new(alloc);
    add_root_of(rt, alloc, &mut diagrams, blif, text)
}
