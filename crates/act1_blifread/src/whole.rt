ghost use Rattle.std.specs.Prelude.{◌≡◌, length, OnOk, IfOk, IfErr};
ghost use Rattle.act1_blifread.specs.Parts.{clock_of, signals_of};
ghost use Rattle.act1_blifread.specs.Faults.{IsFree, IsWhole, WholeBad};
ghost use Rattle.act1_blifread.specs.Netlist.{Answers, IsNetlistOf};
ghost use Rattle.act1_blifread.specs.NetlistSteps.{ArePlaces, AreSignals, Refuses, StopsAt};

use crate::clocks::{clock_of, clock_used_line, second_clock_line};
use crate::graph::loop_line;
use crate::netlist::build_netlist;
use crate::places::places_of;
use crate::signals::{Signals, signals_of, undriven_line};
use crate::twice::twice_line;
use act1_base::{Memory, Stop};
use act1_blif::Blif;
use act1_bliftext::{BlifFault, BlifKind, Statements};
use std::alloc::Global;

// Stops with a fault of this kind, where there is a line.
fn refuse(line: Option<u32>, kind: BlifKind) -> Result<(), Stop<BlifFault>>
    ensures { Refuses line kind result }
{
    match line {
        Some(line) => Err(Stop::Fault(BlifFault { line, kind })),
        None => Ok(()),
    }
}

// No name is given twice, or in `.outputs` twice.
fn check_twice(alloc: Global, statements: &Statements) -> Result<(), Stop<BlifFault>>
    ensures free { OnOk result (IsFree statements.now.statements BlifKind.Twice) }
    ensures fault { IfErr result (StopsAt statements.now) }
{
    let numbered = statements.statements.as_slice();
    let line = twice_line(alloc, statements.names.len(), numbered)?;
    refuse(line, BlifKind::Twice)
}

// There is one clock at most.
fn check_clocks(clock: Option<u16>, statements: &Statements) -> Result<(), Stop<BlifFault>>
    requires clock { clock ≡ clock_of statements.now.statements }
    requires once { IsFree statements.now.statements BlifKind.Twice }
    ensures free { OnOk result (IsFree statements.now.statements BlifKind.Clocks) }
    ensures fault { IfErr result (StopsAt statements.now) }
{
    let line = second_clock_line(clock, statements.statements.as_slice());
    refuse(line, BlifKind::Clocks)
}

// For each name its place among the signals.
fn signal_places(
    alloc: Global,
    clock: Option<u16>,
    statements: &Statements,
) -> Result<Vec<Option<u16>>, Memory>
    requires clock { clock ≡ clock_of statements.now.statements }
    requires once { IsFree statements.now.statements BlifKind.Twice }
    ensures { IfOk result (λ places. ArePlaces (length statements.now.names) (signals_of statements.now.statements) places.items) }
{
    let signals = signals_of(alloc, clock, statements.statements.as_slice())?;
    places_of(alloc, statements.names.len(), signals.as_slice())
}

// Each name that is used is a signal or the clock.
fn check_driven(
    clock: Option<u16>,
    places: &[Option<u16>],
    statements: &Statements,
) -> Result<(), Stop<BlifFault>>
    requires clock { clock ≡ clock_of statements.now.statements }
    requires places { ArePlaces (length statements.now.names) (signals_of statements.now.statements) places.now }
    requires once { IsFree statements.now.statements BlifKind.Twice }
    requires one_clock { IsFree statements.now.statements BlifKind.Clocks }
    ensures free { OnOk result (IsFree statements.now.statements BlifKind.Undriven) }
    ensures fault { IfErr result (StopsAt statements.now) }
{
    let line = undriven_line(clock, places, statements.statements.as_slice());
    refuse(line, BlifKind::Undriven)
}

// The clock stands nowhere else.
fn check_clock_use(clock: Option<u16>, statements: &Statements) -> Result<(), Stop<BlifFault>>
    requires clock { clock ≡ clock_of statements.now.statements }
    requires once { IsFree statements.now.statements BlifKind.Twice }
    requires one_clock { IsFree statements.now.statements BlifKind.Clocks }
    requires driven { IsFree statements.now.statements BlifKind.Undriven }
    ensures free { OnOk result (IsFree statements.now.statements BlifKind.ClockUsed) }
    ensures fault { IfErr result (StopsAt statements.now) }
{
    let line = clock_used_line(clock, statements.statements.as_slice());
    refuse(line, BlifKind::ClockUsed)
}

// No `.names` depends on itself.
fn check_loops(alloc: Global, statements: &Statements) -> Result<(), Stop<BlifFault>>
    requires once { IsFree statements.now.statements BlifKind.Twice }
    requires one_clock { IsFree statements.now.statements BlifKind.Clocks }
    requires driven { IsFree statements.now.statements BlifKind.Undriven }
    requires unused { IsFree statements.now.statements BlifKind.ClockUsed }
    ensures free { OnOk result (IsFree statements.now.statements BlifKind.Loop) }
    ensures fault { IfErr result (StopsAt statements.now) }
{
    let numbered = statements.statements.as_slice();
    let line = loop_line(alloc, statements.names.len(), numbered)?;
    refuse(line, BlifKind::Loop)
}

// The clock and the places of the signals, where no statement has a fault of the whole, or the first
// fault.
#[tactic(auto, using(crate::proofs::FirstLines::is_whole))]
fn signals_in(alloc: Global, statements: &Statements) -> Result<Signals, Stop<BlifFault>>
    ensures whole { OnOk result (IsWhole statements.now.statements) }
    ensures signals { IfOk result (λ signals. AreSignals statements.now signals.clock signals.places.items) }
    ensures fault { IfErr result (StopsAt statements.now) }
{
    check_twice(alloc, statements)?;
    let clock = clock_of(statements.statements.as_slice());
    check_clocks(clock, statements)?;
    let places = signal_places(alloc, clock, statements)?;
    check_driven(clock, places.as_slice(), statements)?;
    check_clock_use(clock, statements)?;
    check_loops(alloc, statements)?;
    Ok(Signals { clock, places })
}

// There was no memory.
fn no_memory() -> BlifFault
    ensures { result ≡ record { line = 0; kind = BlifKind.Memory } }
{
    BlifFault {
        line: 0,
        kind: BlifKind::Memory,
    }
}

/// The netlist that statements say: the clock is the first name in `.clock` or as the control of a
/// latch, and no input; the signals are the other inputs, the outputs of the latches and those of the
/// `.names`, each in order.
///
/// The fault is the first of these kinds, whatever the lines, at the first statement that has it:
///
/// - `Twice`, where a statement gives a name a second time as an input (the clock too), as the output
///   of a latch or of a `.names`, or has one in `.outputs` a second time;
/// - `Clocks`, where it brings a second clock name;
/// - `Undriven`, where it uses a name that nothing gives and that isn't the clock's, as an input of a
///   `.names` or of a latch or in `.outputs`;
/// - `ClockUsed`, where it has the clock in `.outputs`, in `.names`, or as the input or output of a
///   latch;
/// - `Loop`, where it is a `.names` whose output depends on itself through `.names` alone.
///
/// `Memory` may come at any time. What a netlist is and the five kinds are BLIF's; their order is this
/// project's own.
pub fn netlist_of(alloc: Global, statements: Statements) -> Result<Blif, BlifFault>
    ensures { Answers (IsNetlistOf statements) (WholeBad statements) result }
{
    match signals_in(alloc, &statements) {
        Ok(signals) => match build_netlist(alloc, statements, &signals) {
            Ok(net) => Ok(net),
            Err(_) => Err(no_memory()),
        },
        Err(Stop::Fault(fault)) => Err(fault),
        Err(Stop::Memory) => Err(no_memory()),
    }
}
