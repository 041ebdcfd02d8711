use crate::input::{add_bit, netlist_of};
use act1_blif::{Blif, Latch, Node, signal_name};
use act1_logic::{Mark, Row};
use act1_net::{Net, NetTerm, clean, plain};
use std::alloc::Global;
use std::fmt::Write;
use std::rt::Files;
use std::str;

// Adds a blank and a word.
fn add_word(text: &mut String, word: &[u8]) -> Option<()> {
    let word = str::from_utf8(word).ok()?;
    write!(text, " {word}").ok()
}

// Adds a blank and a term: a constant, or the name of a signal.
fn add_term(blif: &Blif, term: NetTerm, text: &mut String) -> Option<()> {
    match term {
        NetTerm::Zero => text.push_str(" zero").ok(),
        NetTerm::One => text.push_str(" one").ok(),
        NetTerm::Signal(signal) => add_word(text, signal_name(blif, signal)),
    }
}

// Adds a latch with what it takes.
fn add_latch(blif: &Blif, latch: &Latch, next: NetTerm, text: &mut String) -> Option<()> {
    text.push_str("latch").ok()?;
    add_word(text, latch.name.as_bytes())?;
    write!(text, " {}", latch.init).ok()?;
    add_term(blif, next, text)?;
    text.push('\n').ok()
}

// Adds a row of a cover.
fn add_row(row: &Row, output: bool, text: &mut String) -> Option<()> {
    for mark in row.marks.as_slice() {
        text.push(match mark {
            Mark::Zero => '0',
            Mark::One => '1',
            Mark::Dash => '-',
        })
        .ok()?;
    }
    text.push(' ').ok()?;
    add_bit(text, output)?;
    text.push('\n').ok()
}

// Adds a node with its rows.
fn add_node(blif: &Blif, node: &Node, text: &mut String) -> Option<()> {
    text.push_str("node").ok()?;
    for signal in node.inputs.as_slice() {
        add_word(text, signal_name(blif, *signal))?;
    }
    add_word(text, node.name.as_bytes())?;
    text.push('\n').ok()?;
    for row in node.cover.rows.as_slice() {
        add_row(row, node.cover.output, text)?;
    }
    Some(())
}

// Adds the latches, the nodes and the outputs of a net.
fn add_net(net: &Net, text: &mut String) -> Option<()> {
    let blif = &net.blif;
    for (latch, next) in blif.latches.as_slice().iter().zip(net.next.as_slice()) {
        add_latch(blif, latch, *next, text)?;
    }
    for node in blif.nodes.as_slice() {
        add_node(blif, node, text)?;
    }
    for (name, output) in net.names.as_slice().iter().zip(net.outputs.as_slice()) {
        text.push_str("output").ok()?;
        add_word(text, name.as_bytes())?;
        add_term(blif, *output, text)?;
        text.push('\n').ok()?;
    }
    Some(())
}

/// The row `clean BLIF`.
pub fn clean_row<R: Files>(rt: &R, alloc: Global, words: &[&str], text: &mut String) -> Option<()> {
    let [blif] = words else {
        return None;
    };
    let blif = netlist_of(rt, alloc, blif)?;
    add_net(&clean(alloc, &blif).ok()?, text)
}

/// The row `plain BLIF`.
pub fn plain_row<R: Files>(rt: &R, alloc: Global, words: &[&str], text: &mut String) -> Option<()> {
    let [blif] = words else {
        return None;
    };
    let blif = netlist_of(rt, alloc, blif)?;
    add_net(&plain(alloc, &blif).ok()?, text)
}

// Adds how many latches and nodes a netlist has.
fn add_counts(blif: &Blif, text: &mut String) -> Option<()> {
    let latches = blif.latches.len();
    let nodes = blif.nodes.len();
    writeln!(text, "latches {latches} nodes {nodes}").ok()
}

/// The row `shrunk BLIF`.
pub fn shrunk_row<R: Files>(
    rt: &R,
    alloc: Global,
    words: &[&str],
    text: &mut String,
) -> Option<()> {
    let [blif] = words else {
        return None;
    };
    let blif = netlist_of(rt, alloc, blif)?;
    add_counts(&blif, text)?;
    add_counts(&clean(alloc, &blif).ok()?.blif, text)
}
