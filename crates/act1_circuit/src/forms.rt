ghost use Rattle.std.specs.Prelude.{◌≡◌, ◌<◌, ◌++◌, IfOk, OnOk, filter, length, not, slice_set, true};
ghost use Rattle.std.specs.List.{filter_map};
ghost use Rattle.std.specs.Option.{option_to_list};
ghost use Rattle.act1_circuit.specs.FormFaults.{ArePairs, FormGives};
ghost use Rattle.act1_circuit.specs.PairForm.{has_clock, outside_module, outside_reads, outside_reads_of};
ghost use Rattle.act1_circuit.specs.PairFormSteps.{AreReaders, AreStarted, IsPairAt, OrderGives, PairsGive};
ghost use Rattle.act1_circuit.specs.Range.{InRange};

use crate::circuit::{Circuit, Source};
use crate::faults::{any_clock, clock_fault, has_clock, least_start};
use crate::masters::master_of;
use crate::pairs::{FormFault, Pair, PairForm};
use crate::readers::{Readers, readers_of};
use act1_base::{Items, Memory};
use act1_order::{Ordering, rings_and_levels, sources_first};
use std::alloc::Global;

// A module has a start.
fn note_start(started: &mut Vec<bool>, module: u16)
    requires { «module» < length started.old.items }
    ensures { started.new.items ≡ slice_set started.old.items «module» true }
{
    started[usize::from(module)] = true;
}

// For each module whether it has a start.
fn started_of(alloc: Global, circuit: &Circuit) -> Result<Vec<bool>, Memory>
    requires { InRange circuit.now }
    ensures { IfOk result (λ started. AreStarted circuit.now started.items) }
{
    let mut started = vec![in alloc; false; circuit.modules.len()]?;
    for start in circuit.starts.as_slice() {
        note_start(&mut started, start.module);
    }
    Ok(started)
}

// The module of a source, if it is one without the clock on a pin.
fn outside_module(circuit: &Circuit, source: Source) -> Option<u16>
    ensures { result ≡ outside_module circuit.now source }
{
    match source {
        Source::Zero => None,
        Source::One => None,
        Source::Clock => None,
        Source::Input(_) => None,
        Source::Module(module) => {
            if has_clock(circuit, module) {
                None
            } else {
                Some(module)
            }
        }
    }
}

// The modules without the clock on a pin among some sources.
fn outside_modules(
    alloc: Global,
    circuit: &Circuit,
    sources: &[Source],
) -> Result<Items<u16>, Memory>
    ensures { IfOk result (λ modules. modules ≡ filter_map (outside_module circuit.now) sources.now) }
{
    let modules = sources
        .iter()
        .copied()
        .filter_map(|source| outside_module(circuit, source))
        .collect(alloc)?;
    Ok(Items::from_vec(modules))
}

// The modules without the clock on a pin that these pins read, if none of them has the clock.
fn outside_reads_of(alloc: Global, circuit: &Circuit, pins: &[Source]) -> Result<Items<u16>, Memory>
    ensures { IfOk result (λ reads. reads ≡ outside_reads_of circuit.now pins.now) }
{
    if any_clock(pins) {
        return Ok(Items::new(alloc));
    }
    outside_modules(alloc, circuit, pins)
}

// For each module without the clock on a pin, those such modules that it reads.
fn outside_reads(alloc: Global, circuit: &Circuit) -> Result<Vec<Items<u16>>, Memory>
    ensures { IfOk result (λ reads. reads.items ≡ outside_reads circuit.now) }
{
    let mut reads = Vec::new(alloc);
    for pins in circuit.modules.as_slice() {
        reads.push(outside_reads_of(alloc, circuit, pins)?)?;
    }
    Ok(reads)
}

// Those of some modules that have no clock on a pin.
fn unclocked(alloc: Global, circuit: &Circuit, order: &[u16]) -> Result<Items<u16>, Memory>
    ensures { IfOk result (λ kept. kept ≡ filter (λ m. not (has_clock circuit.now m)) order.now) }
{
    let kept = order
        .iter()
        .copied()
        .filter(|module| !has_clock(circuit, *module))
        .collect(alloc)?;
    Ok(Items::from_vec(kept))
}

// The modules outside pairs, each after those that it reads, or the least that depends on itself.
fn order_of(alloc: Global, circuit: &Circuit) -> Result<Items<u16>, FormFault>
    requires { InRange circuit.now }
    ensures { OrderGives circuit.now result }
{
    rings_and_levels();
    let reads = outside_reads(alloc, circuit)?;
    match sources_first(alloc, reads.as_slice())? {
        Ordering::Order(order) => Ok(unclocked(alloc, circuit, order.as_slice())?),
        Ordering::Ring(module) => Err(FormFault::Ring(module)),
    }
}

// The pair whose slave a module is, if it is one.
fn pair_of(circuit: &Circuit, readers: &[Readers], slave: u16) -> Option<Pair>
    requires range { InRange circuit.now }
    requires readers { AreReaders circuit.now readers.now }
    requires low { slave < length circuit.now.modules }
    ensures { IsPairAt circuit.now slave result }
{
    let master = master_of(circuit, readers, slave)?;
    Some(Pair { master, slave })
}

// Adds a pair, if there is one.
fn add_pair(pairs: &mut Vec<Pair>, pair: Option<Pair>) -> Result<(), Memory>
    ensures { OnOk result (pairs.new.items ≡ pairs.old.items ++ option_to_list pair) }
{
    if let Some(pair) = pair {
        pairs.push(pair)?;
    }
    Ok(())
}

// The pairs, rising by slave.
fn pairs_of(alloc: Global, circuit: &Circuit, readers: &[Readers]) -> Result<Items<Pair>, Memory>
    requires range { InRange circuit.now }
    requires readers { AreReaders circuit.now readers.now }
    ensures { IfOk result (ArePairs circuit.now) }
{
    let mut pairs = Vec::new(alloc);
    for slave in 0..circuit.modules.len() {
        add_pair(&mut pairs, pair_of(circuit, readers, slave as u16))?;
    }
    Ok(Items::from_vec(pairs))
}

// The pairs, rising by slave, where the starts stand at the slaves; or the least module at which they
// don't.
fn started_pairs(
    alloc: Global,
    circuit: &Circuit,
    readers: &[Readers],
) -> Result<Items<Pair>, FormFault>
    requires range { InRange circuit.now }
    requires readers { AreReaders circuit.now readers.now }
    ensures { PairsGive circuit.now result }
{
    let started = started_of(alloc, circuit)?;
    match least_start(circuit, readers, started.as_slice()) {
        Some(module) => Err(FormFault::Start(module)),
        None => Ok(pairs_of(alloc, circuit, readers)?),
    }
}

/// The latch pairs of a circuit, rising by slave, and its other modules, each after those that it reads; or
/// the first fault. A pair is a master and a slave: both have the clock at S0 and ground at A1, SA, B1, SB
/// and S1. The master has the latch's input at A0 and its own output at B0; the slave has its own output at
/// A0 and the master at B0. Nothing else has the master as its source. What pair form is is this project's
/// own rule. It takes time and memory in proportion to the circuit. `Memory` is answered where no memory
/// was found.
pub fn pair_form(alloc: Global, circuit: &Circuit) -> Result<PairForm, FormFault>
    requires { InRange circuit.now }
    ensures { FormGives circuit.now result }
{
    let readers = readers_of(alloc, circuit)?;
    if let Some(fault) = clock_fault(circuit, readers.as_slice()) {
        return Err(fault);
    }
    let order = order_of(alloc, circuit)?;
    let pairs = started_pairs(alloc, circuit, readers.as_slice())?;
    Ok(PairForm { pairs, order })
}
