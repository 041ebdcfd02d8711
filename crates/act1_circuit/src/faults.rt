ghost use Rattle.std.specs.Prelude.{◌≡◌, ◌<◌, ◌≤◌, ◌↔◌, IsTrue, length};
ghost use Rattle.std.specs.List.{list_any};
ghost use Rattle.act1_circuit.specs.FormFaults.{HasFault};
ghost use Rattle.act1_circuit.specs.PairForm.{HasStart, has_clock, is_clock};
ghost use Rattle.act1_circuit.specs.PairFormSteps.{AreReaders, AreStarted, IsClockFault, IsLeastWith};
ghost use Rattle.act1_circuit.specs.Range.{InRange};

use crate::circuit::{Circuit, Source};
use crate::masters::{is_in_pair, master_of};
use crate::pairs::FormFault;
use crate::readers::Readers;

// Whether a source is the clock.
fn is_clock(source: Source) -> bool
    ensures { result ≡ is_clock source }
{
    match source {
        Source::Zero => false,
        Source::One => false,
        Source::Clock => true,
        Source::Input(_) => false,
        Source::Module(_) => false,
    }
}

/// Whether one of some pins' sources is the clock.
pub fn any_clock(pins: &[Source]) -> bool
    ensures { result ≡ list_any is_clock pins.now }
{
    pins.iter().any(|pin| is_clock(*pin))
}

/// Whether the clock is on a pin of a module. A module that isn't there has no pins.
pub fn has_clock(circuit: &Circuit, module: u16) -> bool
    ensures { result ≡ has_clock circuit.now «module» }
{
    match circuit.modules.as_slice().get(usize::from(module)) {
        Some(pins) => any_clock(pins),
        None => false,
    }
}

// Whether a module has the clock on a pin and is in no pair.
fn is_clocked(circuit: &Circuit, readers: &[Readers], module: u16) -> bool
    requires range { InRange circuit.now }
    requires readers { AreReaders circuit.now readers.now }
    requires low { «module» < length circuit.now.modules }
    ensures { IsTrue result ↔ HasFault circuit.now (FormFault.Clocked «module») }
{
    if is_in_pair(circuit, readers, module) {
        return false;
    }
    has_clock(circuit, module)
}

// The least module with the clock on a pin that is in no pair.
fn least_clocked(circuit: &Circuit, readers: &[Readers]) -> Option<u16>
    requires range { InRange circuit.now }
    requires readers { AreReaders circuit.now readers.now }
    ensures { IsLeastWith (λ m. HasFault circuit.now (FormFault.Clocked m)) result }
{
    for module in 0..circuit.modules.len() {
        if is_clocked(circuit, readers, module as u16) {
            return Some(module as u16);
        }
    }
    None
}

// The least output whose source is the clock.
fn least_clock_out(circuit: &Circuit) -> Option<u16>
    requires { length circuit.now.outputs ≤ 65535 }
    ensures { IsLeastWith (λ o. HasFault circuit.now (FormFault.ClockOut o)) result }
{
    let outputs = circuit.outputs.as_slice();
    for output in 0..outputs.len() {
        if is_clock(outputs[output].source) {
            return Some(output as u16);
        }
    }
    None
}

/// The first of the two faults of the clock.
pub fn clock_fault(circuit: &Circuit, readers: &[Readers]) -> Option<FormFault>
    requires range { InRange circuit.now }
    requires readers { AreReaders circuit.now readers.now }
    ensures { IsClockFault circuit.now result }
{
    if let Some(module) = least_clocked(circuit, readers) {
        return Some(FormFault::Clocked(module));
    }
    match least_clock_out(circuit) {
        Some(output) => Some(FormFault::ClockOut(output)),
        None => None,
    }
}

// Whether a module is a slave without a start, or has a start and is no slave.
fn is_misplaced(circuit: &Circuit, readers: &[Readers], is_started: bool, module: u16) -> bool
    requires range { InRange circuit.now }
    requires readers { AreReaders circuit.now readers.now }
    requires low { «module» < length circuit.now.modules }
    requires started { IsTrue is_started ↔ HasStart circuit.now «module» }
    ensures { IsTrue result ↔ HasFault circuit.now (FormFault.Start «module») }
{
    master_of(circuit, readers, module).is_some() != is_started
}

/// The least module that is a slave without a start, or has a start and is no slave.
pub fn least_start(circuit: &Circuit, readers: &[Readers], started: &[bool]) -> Option<u16>
    requires range { InRange circuit.now }
    requires readers { AreReaders circuit.now readers.now }
    requires started { AreStarted circuit.now started.now }
    ensures { IsLeastWith (λ m. HasFault circuit.now (FormFault.Start m)) result }
{
    for module in 0..started.len() {
        if is_misplaced(circuit, readers, started[module], module as u16) {
            return Some(module as u16);
        }
    }
    None
}
