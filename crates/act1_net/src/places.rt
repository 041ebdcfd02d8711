ghost use Rattle.std.specs.Prelude.{◌≡◌, ◌≤◌, IfOk, length};
ghost use Rattle.act1_net.specs.MarkSteps.{ArePlaces, mark_count};

use act1_base::Memory;
use std::alloc::Global;
use std::marker::Model;

/// Which signals are kept, with their new numbers. A contract sees it as the marks of the kept signals.
#[derive(Drop)]
pub struct Places {
    marks: Vec<bool>,
    numbers: Vec<u16>,
}

impl Model for Places {
    ghost use Rattle.std.specs.Prelude.{List, Bool};
    ghost use Rattle.act1_net.specs.MarkSteps.{ArePlaces};

    ghost Value = { List Bool };

    ghost view = { λ p. p.marks.items };

    ghost invariant = { λ p. ArePlaces p.marks.items p.numbers.items };
}

// How many signals a mark keeps.
fn mark_count(mark: bool) -> u16
    ensures { result ≡ mark_count mark }
{
    if mark { 1 } else { 0 }
}

// The new number of each signal.
fn numbers_of(alloc: Global, marks: &[bool]) -> Result<Vec<u16>, Memory>
    requires { length marks.now ≤ 65535 }
    ensures { IfOk result (λ numbers. ArePlaces marks.now numbers.items) }
{
    let mut numbers = Vec::new(alloc);
    let mut next: u16 = 0;
    for mark in marks {
        numbers.push(next)?;
        next += mark_count(*mark);
    }
    Ok(numbers)
}

impl Places {
    ghost use Rattle.std.specs.Prelude.{◌<◌};
    ghost use Rattle.act1_net.specs.Net.{place_in};

    /// The kept signals by these marks, numbered anew in their order.
    pub fn new(alloc: Global, marks: Vec<bool>) -> Result<Places, Memory>
        requires { length marks.items ≤ 65535 }
        ensures { IfOk result (λ places. places ≡ marks.items) }
    {
        let numbers = numbers_of(alloc, &marks)?;
        Ok(Places { marks, numbers })
    }

    /// The marks.
    pub fn marks(&self) -> &[bool]
        ensures { result.now ≡ self.now }
    {
        &self.marks
    }

    /// The new number of a signal.
    pub fn of(&self, signal: u16) -> u16
        requires { signal < length self.now }
        ensures { result ≡ place_in self.now signal }
    {
        self.numbers[usize::from(signal)]
    }
}
