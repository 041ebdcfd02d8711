ghost use Rattle.std.specs.Prelude.{◌≡◌, ◌<◌, ◌≤◌, ◌+◌, if◌then◌else◌, length, IfOk};
ghost use Rattle.std.specs.List.{list_any};
ghost use Rattle.act1_circuit.specs.declared.circuit.Source.TheVariants as the;
ghost use Rattle.act1_circuit.specs.declared.circuit.Start.{Start};
ghost use Rattle.act1_circuit.specs.Range.{InRange};
ghost use Rattle.act1_meaning.specs.Extracted.{is_same};
ghost use Rattle.act1_extract.specs.Layout.{IsLayout, found_signal, has_taken, module_number, start_takes, taken_signal};

use crate::counts::{count_outside, count_slaves, module_signals};
use crate::plan::Layout;
use crate::sources::{is_same, pin_of};
use act1_base::Memory;
use act1_circuit::{Circuit, Source, Start};
use std::alloc::Global;

// The number of a module, and 0 of another source.
fn module_number(source: Source) -> u16
    ensures { result ≡ module_number source }
{
    match source {
        Source::Zero => 0,
        Source::One => 0,
        Source::Clock => 0,
        Source::Input(_) => 0,
        Source::Module(module) => module,
    }
}

/// The source that the latch of a start takes: that at A0 of the module at B0 of the slave.
pub fn start_takes(circuit: &Circuit, start: &Start) -> Source
    requires range { InRange circuit.now }
    requires low { start.now.«module» < length circuit.now.modules }
    ensures { result ≡ start_takes circuit.now start.now }
{
    let master = module_number(pin_of(circuit, start.module, 3));
    match circuit.modules.as_slice().get(usize::from(master)) {
        Some(pins) => pins[0],
        None => Source::Zero,
    }
}

// Whether some latch takes this source.
fn has_taken(circuit: &Circuit, source: Source) -> bool
    requires { InRange circuit.now }
    ensures { result ≡ has_taken circuit.now source circuit.now.starts }
{
    for start in circuit.starts.as_slice() {
        if is_same(source, start_takes(circuit, start)) {
            return true;
        }
    }
    false
}

/// The signal of an input or a module.
pub fn found_signal(signals: &[u16], source: Source) -> u16
    ensures { result ≡ found_signal signals.now source }
{
    match source {
        Source::Zero => 0,
        Source::One => 0,
        Source::Clock => 0,
        Source::Input(input) => input,
        Source::Module(module) => match signals.get(usize::from(module)) {
            Some(signal) => *signal,
            None => 0,
        },
    }
}

/// The signal that a latch takes: that of the source, or of the constant's node.
pub fn taken_signal(layout: &Layout, source: Source) -> u16
    ensures { result ≡ taken_signal layout.now source }
{
    match source {
        Source::Zero => layout.zero_at,
        Source::One => layout.one_at,
        Source::Clock => 0,
        Source::Input(_) => found_signal(layout.signals.as_slice(), source),
        Source::Module(_) => found_signal(layout.signals.as_slice(), source),
    }
}

// The number behind one, where a test holds.
fn behind(number: u16, test: bool) -> u16
    requires { number < 65535 }
    ensures { result ≡ number + (if test then 1 else 0) }
{
    if test { number + 1 } else { number }
}

/// Where the signals of a circuit stand.
pub fn layout_of(alloc: Global, circuit: &Circuit) -> Result<Layout, Memory>
    requires range { InRange circuit.now }
    requires inputs { length circuit.now.inputs ≤ 2112 }
    requires modules { length circuit.now.modules ≤ 2048 }
    ensures { IfOk result (IsLayout circuit.now) }
{
    let nodes_at = circuit.inputs.len() + count_slaves(circuit);
    let outside = count_outside(circuit);
    let has_zero = has_taken(circuit, Source::Zero);
    let has_one = has_taken(circuit, Source::One);
    let zero_at = (nodes_at + outside) as u16;
    let one_at = behind(zero_at, has_zero);
    let outputs_at = behind(one_at, has_one);
    let signals = module_signals(alloc, circuit)?;
    Ok(Layout {
        signals,
        outside,
        has_zero,
        has_one,
        zero_at,
        one_at,
        outputs_at,
    })
}
