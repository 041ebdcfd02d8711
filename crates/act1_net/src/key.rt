ghost use Rattle.std.specs.Prelude.{◌≡◌, ◌++◌, ◌∷◌, [], nat_eq, IfOk, OnOk, map};
ghost use Rattle.std.specs.List.{flat_map};
ghost use Rattle.std.specs.Hash as fed;
ghost use Rattle.std.specs.Cmp.Lexicographic.{pointwise, nat_list_eq_equiv};
ghost use Rattle.std.specs.Cmp.{partial_equiv_from_equiv};
ghost use Rattle.std.specs.Cmp.Rules.{hashing};
ghost use Rattle.std.proofs.Common.{rules};
ghost use Rattle.act1_net.specs.Gates.{key_of, mark_number, output_number, row_numbers};

use crate::gate::Gate;
use act1_base::Memory;
use act1_logic::{Mark, Row};
use std::alloc::Global;
use std::hash::{Hash, Hasher};
use std::marker::Model;

/// A function of signals as a list of numbers: its output, the marks of each row and 3, then 4, and its
/// inputs. Equal lists are equal functions of equal signals.
#[derive(Drop)]
pub struct Key {
    numbers: Vec<u16>,
}

impl Model for Key {
    ghost use Rattle.std.specs.Prelude.{ℕ, List};

    ghost Value = { List ℕ };

    ghost view = { λ k. k.numbers.items };
}

impl PartialEq for Key {
    ghost eq = { pointwise nat_eq };

    ghost laws = { partial_equiv_from_equiv nat_list_eq_equiv };

    fn eq(&self, other: &Key) -> bool {
        self.numbers.as_slice() == other.numbers.as_slice()
    }
}

impl Eq for Key {
    ghost laws = { nat_list_eq_equiv };
}

impl Hash for Key {
    ghost hash_input = { fed.slice fed.u16 };

    ghost respects_eq = { Prim.search (hashing, rules) };

    fn hash<H: Hasher>(&self, state: &mut H) {
        self.numbers.as_slice().hash(state);
    }
}

// The number of a mark.
fn mark_number(mark: Mark) -> u16
    ensures { result ≡ mark_number mark }
{
    match mark {
        Mark::Zero => 0,
        Mark::One => 1,
        Mark::Dash => 2,
    }
}

// The numbers of a row go last.
fn add_row(numbers: &mut Vec<u16>, row: &Row) -> Result<(), Memory>
    ensures { OnOk result (numbers.new.items ≡ numbers.old.items ++ row_numbers row.now) }
{
    for mark in row.marks.as_slice() {
        numbers.push(mark_number(*mark))?;
    }
    numbers.push(3)?;
    Ok(())
}

// The numbers of a function's rows and inputs go last.
fn add_gate(numbers: &mut Vec<u16>, gate: &Gate) -> Result<(), Memory>
    ensures { OnOk result (numbers.new.items ≡ (numbers.old.items ++ flat_map row_numbers gate.now.rows) ++ 4 ∷ gate.now.inputs) }
{
    for row in gate.rows.as_slice() {
        add_row(numbers, row)?;
    }
    numbers.push(4)?;
    numbers.extend_from_slice(gate.inputs.as_slice())?;
    Ok(())
}

impl Key {
    /// The key of a function of signals.
    pub fn of(alloc: Global, gate: &Gate) -> Result<Key, Memory>
        ensures { IfOk result (λ key. key ≡ key_of gate.now) }
    {
        let mut numbers = Vec::new(alloc);
        numbers.push(u16::from(gate.output))?;
        add_gate(&mut numbers, gate)?;
        Ok(Key { numbers })
    }
}
