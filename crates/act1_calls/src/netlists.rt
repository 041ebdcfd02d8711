use crate::input::{add_bit, inputs_of, netlist_of, vectors_of};
use act1_blif::{Blif, values};
use std::alloc::Global;
use std::rt::Files;

// The values of all signals at the input vector of a number.
fn values_at(alloc: Global, netlist: &Blif, number: u64) -> Option<Vec<bool>> {
    let width = netlist.inputs.len();
    if width > 6 || !netlist.latches.is_empty() {
        return None;
    }
    let inputs = inputs_of(alloc, number, width as u8)?;
    values(alloc, netlist, &inputs, &[]).ok()
}

// Adds bits as a line, one character for each.
fn add_bits(text: &mut String, bits: &[bool]) -> Option<()> {
    for bit in bits {
        add_bit(text, *bit)?;
    }
    text.push('\n').ok()
}

// Adds the values of all signals at an input vector.
fn add_values_at(alloc: Global, netlist: &Blif, number: u64, text: &mut String) -> Option<()> {
    let values = values_at(alloc, netlist, number)?;
    add_bits(text, &values)
}

// Adds the values of all signals at each input vector.
fn add_values(alloc: Global, netlist: &Blif, text: &mut String) -> Option<()> {
    let width = netlist.inputs.len();
    if width > 6 {
        return None;
    }
    for number in 0..vectors_of(width as u8) {
        add_values_at(alloc, netlist, number, text)?;
    }
    Some(())
}

/// The row `values BLIF`.
pub fn values_row<R: Files>(
    rt: &R,
    alloc: Global,
    words: &[&str],
    text: &mut String,
) -> Option<()> {
    let [blif] = words else {
        return None;
    };
    let netlist = netlist_of(rt, alloc, blif)?;
    add_values(alloc, &netlist, text)
}
