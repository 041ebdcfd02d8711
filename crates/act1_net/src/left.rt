ghost use Rattle.std.specs.Prelude.{◌≡◌, ◌<◌, ◌++◌, All, IfOk, OnOk, length, map};
ghost use Rattle.std.specs.List.{filter_map};
ghost use Rattle.std.specs.Option.{option_to_list};
ghost use Rattle.act1_net.specs.Gates.{gate_left, gate_with, has_against, is_against, mark_left, marks_left, row_left, signal_of, term_of};

use crate::gate::Gate;
use crate::net::NetTerm;
use act1_base::{Items, Memory};
use act1_blif::Node;
use act1_logic::{Mark, Marks, Row};
use std::alloc::Global;

/// The term of a signal.
pub fn term_of(terms: &[NetTerm], signal: u16) -> NetTerm
    requires { signal < length terms.now }
    ensures { result ≡ term_of terms.now signal }
{
    terms[usize::from(signal)]
}

/// The terms of some signals.
pub fn terms_of(alloc: Global, terms: &[NetTerm], signals: &[u16]) -> Result<Items<NetTerm>, Memory>
    requires { All (λ signal. signal < length terms.now) signals.now }
    ensures { IfOk result (λ own. own ≡ map (term_of terms.now) signals.now) }
{
    let mut own = Items::new(alloc);
    for signal in signals {
        own.push(term_of(terms, *signal))?;
    }
    Ok(own)
}

// The signal of a term goes last, if the term has one.
fn add_signal(signals: &mut Items<u16>, term: NetTerm) -> Result<(), Memory>
    ensures { OnOk result (signals.new ≡ signals.old ++ option_to_list (signal_of term)) }
{
    match term {
        NetTerm::Zero => Ok(()),
        NetTerm::One => Ok(()),
        NetTerm::Signal(signal) => signals.push(signal),
    }
}

/// The signals among some terms.
pub fn signals_in(alloc: Global, terms: &[NetTerm]) -> Result<Items<u16>, Memory>
    ensures { IfOk result (λ signals. signals ≡ filter_map signal_of terms.now) }
{
    let mut signals = Items::new(alloc);
    for term in terms {
        add_signal(&mut signals, *term)?;
    }
    Ok(signals)
}

// Whether a mark asks of a constant what it isn't.
fn is_against(term: NetTerm, mark: Mark) -> bool
    ensures { result ≡ is_against term mark }
{
    match (term, mark) {
        (NetTerm::Zero, Mark::One) => true,
        (NetTerm::One, Mark::Zero) => true,
        _ => false,
    }
}

// Whether some mark does.
fn has_against(terms: &[NetTerm], marks: &[Mark]) -> bool
    requires { length marks.now ≡ length terms.now }
    ensures { result ≡ has_against terms.now marks.now }
{
    for (term, mark) in terms.iter().zip(marks) {
        if is_against(*term, *mark) {
            return true;
        }
    }
    false
}

// The mark goes last, where it is a signal's.
fn add_mark(marks: &mut Marks, term: NetTerm, mark: Mark) -> Result<(), Memory>
    ensures { OnOk result (marks.new ≡ marks.old ++ option_to_list (mark_left term mark)) }
{
    match term {
        NetTerm::Zero => Ok(()),
        NetTerm::One => Ok(()),
        NetTerm::Signal(_) => marks.push(mark),
    }
}

// The marks of signals.
fn marks_left(alloc: Global, terms: &[NetTerm], marks: &[Mark]) -> Result<Marks, Memory>
    requires { length marks.now ≡ length terms.now }
    ensures { IfOk result (λ left. left ≡ marks_left terms.now marks.now) }
{
    let mut left = Marks::new(alloc);
    for (term, mark) in terms.iter().zip(marks) {
        add_mark(&mut left, *term, *mark)?;
    }
    Ok(left)
}

// What is left of a row goes last, unless a mark is against a constant.
fn add_row(alloc: Global, rows: &mut Items<Row>, terms: &[NetTerm], row: &Row) -> Result<(), Memory>
    requires { length row.now.marks ≡ length terms.now }
    ensures { OnOk result (rows.new ≡ rows.old ++ option_to_list (row_left terms.now row.now)) }
{
    let marks = row.marks.as_slice();
    if has_against(terms, marks) {
        return Ok(());
    }
    let marks = marks_left(alloc, terms, marks)?;
    rows.push(Row { marks })
}

// What is left of some rows.
fn rows_left(alloc: Global, terms: &[NetTerm], rows: &[Row]) -> Result<Items<Row>, Memory>
    requires { All (λ row. length row.marks ≡ length terms.now) rows.now }
    ensures { IfOk result (λ left. left ≡ filter_map (row_left terms.now) rows.now) }
{
    let mut left = Items::new(alloc);
    for row in rows {
        add_row(alloc, &mut left, terms, row)?;
    }
    Ok(left)
}

// The function of signals that is left of a node whose inputs are these terms.
fn gate_left(alloc: Global, terms: &[NetTerm], node: &Node) -> Result<Gate, Memory>
    requires { node.now.cover.width ≡ length terms.now }
    ensures { IfOk result (λ gate. gate ≡ gate_left terms.now node.now) }
{
    let inputs = signals_in(alloc, terms)?;
    let rows = rows_left(alloc, terms, node.cover.rows.as_slice())?;
    Ok(Gate {
        inputs,
        output: node.cover.output,
        rows,
    })
}

/// The function of signals that is left of a node, with the terms of all signals.
pub fn gate_with(alloc: Global, terms: &[NetTerm], node: &Node) -> Result<Gate, Memory>
    requires inputs { All (λ signal. signal < length terms.now) node.now.inputs }
    requires width { node.now.cover.width ≡ length node.now.inputs }
    ensures { IfOk result (λ gate. gate ≡ gate_with terms.now node.now) }
{
    let own = terms_of(alloc, terms, node.inputs.as_slice())?;
    gate_left(alloc, own.as_slice(), node)
}
