ghost use Rattle.std.specs.Prelude.{ℕ, ◌≡◌, ◌<◌, ◌≤◌, ◌+◌, All, IfOk, OnOk, Some, length, slice_get};
ghost use Rattle.act1_order.specs.Order.{IsOrder};
ghost use Rattle.act1_blif.specs.Graph.{first_node, reads_of, signal_count};
ghost use Rattle.act1_blif.specs.declared.blif.Node.{Node};
ghost use Rattle.act1_net.specs.declared.net.NetTerm.TheVariants as term;
ghost use Rattle.act1_net.specs.Gates.{key_of};
ghost use Rattle.act1_net.specs.PassSteps.{ArePassed, IsJoined, IsPassed, IsTermOf};

use crate::gate::Gate;
use crate::key::Key;
use crate::left::gate_with;
use crate::net::NetTerm;
use crate::settling::settled;
use crate::table::Table;
use act1_base::Memory;
use act1_blif::{Blif, Node, netlists_are_whole};
use std::alloc::Global;

// The kept node with this function, or else the signal, which is kept then.
fn joined(alloc: Global, table: &mut Table, gate: &Gate, signal: u16) -> Result<NetTerm, Memory>
    ensures { IfOk result (λ t. IsJoined (key_of gate.now) signal table.old t table.new) }
{
    let key = Key::of(alloc, gate)?;
    if let Some(alike) = table.find(&key) {
        return Ok(NetTerm::Signal(alike));
    }
    table.add(key, signal)?;
    Ok(NetTerm::Signal(signal))
}

// The term of a signal with this function.
fn term_for(alloc: Global, table: &mut Table, gate: &Gate, signal: u16) -> Result<NetTerm, Memory>
    ensures { IfOk result (λ t. IsTermOf gate.now signal table.old t table.new) }
{
    match settled(gate) {
        Some(term) => Ok(term),
        None => joined(alloc, table, gate, signal),
    }
}

// A node's signal gets its term.
fn pass_node(
    alloc: Global,
    node: &Node,
    signal: u16,
    terms: &mut Vec<NetTerm>,
    table: &mut Table,
) -> Result<(), Memory>
    requires low { signal < length terms.old.items }
    requires inputs { All (λ s. s < length terms.old.items) node.now.inputs }
    requires width { node.now.cover.width ≡ length node.now.inputs }
    ensures { OnOk result (IsPassed node.now signal terms.old.items table.old terms.new.items table.new) }
{
    let gate = gate_with(alloc, terms, node)?;
    let term = term_for(alloc, table, &gate, signal)?;
    terms[usize::from(signal)] = term;
    Ok(())
}

// The signal gets its term, where it is a node's.
fn pass_signal(
    alloc: Global,
    blif: &Blif,
    signal: u16,
    terms: &mut Vec<NetTerm>,
    table: &mut Table,
) -> Result<(), Memory>
    requires all { length terms.old.items ≡ signal_count blif.now }
    requires low { signal < signal_count blif.now }
    ensures given { signal < first_node blif.now → OnOk result ((terms.new.items ≡ terms.old.items) × (table.new ≡ table.old)) }
    ensures node { (j : ℕ) (node : Node) → signal ≡ first_node blif.now + j → slice_get blif.now.nodes j ≡ Some node → OnOk result (IsPassed node signal terms.old.items table.old terms.new.items table.new) }
{
    netlists_are_whole();
    let first = blif.inputs.len() + blif.latches.len();
    let number = usize::from(signal);
    if number < first {
        return Ok(());
    }
    let node = &blif.nodes.as_slice()[number - first];
    pass_node(alloc, node, signal, terms, table)
}

// Each of so many signals as its own term.
fn own_terms(alloc: Global, signals: usize) -> Result<Vec<NetTerm>, Memory>
    requires { signals ≤ 65535 }
    ensures all { IfOk result (λ terms. length terms.items ≡ signals) }
    ensures own { IfOk result (λ terms. (s : ℕ) → s < signals → slice_get terms.items s ≡ Some (term.Signal s)) }
{
    let mut terms = Vec::new(alloc);
    for signal in 0..signals {
        terms.push(NetTerm::Signal(signal as u16))?;
    }
    Ok(terms)
}

/// The terms of all signals, over the signals of the kept nodes, where the order has each signal after
/// those that it reads. Constants and copies are passed on, and nodes with the same function of the
/// same signals are joined.
pub fn terms_of_signals(alloc: Global, blif: &Blif, order: &[u16]) -> Result<Vec<NetTerm>, Memory>
    requires { IsOrder (reads_of blif.now) order.now }
    ensures { IfOk result (λ terms. ArePassed blif.now order.now terms.items) }
{
    netlists_are_whole();
    let mut terms = own_terms(alloc, order.len())?;
    let mut table = Table::new(alloc);
    for signal in order {
        pass_signal(alloc, blif, *signal, &mut terms, &mut table)?;
    }
    Ok(terms)
}
