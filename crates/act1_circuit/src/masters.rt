ghost use Rattle.std.specs.Prelude.{◌≡◌, ◌<◌, ◌≤◌, ◌↔◌, IsTrue, Some, length, slice_get};
ghost use Rattle.act1_circuit.specs.PairForm.{InPair, master_pins, pin_of, rising, slave_pins};
ghost use Rattle.act1_circuit.specs.PairFormSteps.{AreReaders, Follows, HasMaster, IsMaster, IsPairMaster, source_module, only_reader};
ghost use Rattle.act1_circuit.specs.Range.{InRange};

use crate::circuit::{Circuit, Source};
use crate::readers::Readers;

// The pins of a master whose latch takes this source: while the clock is 0 it follows the source at A0,
// and while it is 1 it holds its own bit by B0.
fn master_pins(takes: Source, master: u16) -> [Source; 8]
    ensures { result ≡ master_pins rising takes «master» }
{
    let ground = Source::Zero;
    [
        takes,
        ground,
        ground,
        Source::Module(master),
        ground,
        ground,
        Source::Clock,
        ground,
    ]
}

// The pins of a slave: while the clock is 0 it holds its own bit by A0, and while it is 1 it follows its
// master at B0.
fn slave_pins(master: u16, slave: u16) -> [Source; 8]
    ensures { result ≡ slave_pins rising «master» «slave» }
{
    let ground = Source::Zero;
    [
        Source::Module(slave),
        ground,
        ground,
        Source::Module(master),
        ground,
        ground,
        Source::Clock,
        ground,
    ]
}

// The sources of a module's pins.
fn pins_of(circuit: &Circuit, module: u16) -> [Source; 8]
    requires { «module» < length circuit.now.modules }
    ensures { slice_get circuit.now.modules «module» ≡ Some result }
{
    circuit.modules.as_slice()[usize::from(module)]
}

// Whether a module has these pins.
fn has_pins(circuit: &Circuit, module: u16, pins: [Source; 8]) -> bool
    requires { «module» < length circuit.now.modules }
    ensures { IsTrue result ↔ (slice_get circuit.now.modules «module» ≡ Some pins) }
{
    pins_of(circuit, module) == pins
}

// The source of a pin.
fn pin_of(circuit: &Circuit, module: u16, pin: usize) -> Source
    requires low { «module» < length circuit.now.modules }
    requires pin { pin < 8 }
    ensures { result ≡ pin_of circuit.now «module» pin }
{
    circuit.modules.as_slice()[usize::from(module)][pin]
}

// Whether a module has the pins of a master.
fn is_master(circuit: &Circuit, module: u16) -> bool
    requires { «module» < length circuit.now.modules }
    ensures { IsTrue result ↔ IsMaster circuit.now «module» }
{
    let takes = pin_of(circuit, module, 0);
    if takes == Source::Clock {
        return false;
    }
    if takes == Source::Module(module) {
        return false;
    }
    has_pins(circuit, module, master_pins(takes, module))
}

// The module of a source, if it is one.
fn module_of(source: Source) -> Option<u16>
    ensures { result ≡ source_module source }
{
    match source {
        Source::Zero => None,
        Source::One => None,
        Source::Clock => None,
        Source::Input(_) => None,
        Source::Module(module) => Some(module),
    }
}

// The module at B0 of a module, if the latter has the pins of a slave.
fn followed(circuit: &Circuit, module: u16) -> Option<u16>
    requires { «module» < length circuit.now.modules }
    ensures { Follows circuit.now «module» result }
{
    let master = module_of(pin_of(circuit, module, 3))?;
    if has_pins(circuit, module, slave_pins(master, module)) {
        Some(master)
    } else {
        None
    }
}

// Whether this row alone reads a module.
fn is_only(readers: Readers, row: usize) -> bool
    ensures { IsTrue result ↔ (readers ≡ Readers.One row) }
{
    match readers {
        Readers::Nobody => false,
        Readers::One(only) => only == row,
        Readers::Many => false,
    }
}

/// The master of the pair whose slave a module is, or none where it is no slave.
pub fn master_of(circuit: &Circuit, readers: &[Readers], module: u16) -> Option<u16>
    requires range { InRange circuit.now }
    requires readers { AreReaders circuit.now readers.now }
    requires low { «module» < length circuit.now.modules }
    ensures { HasMaster circuit.now «module» result }
{
    let master = followed(circuit, module)?;
    if !is_master(circuit, master) {
        return None;
    }
    if !is_only(readers[usize::from(master)], usize::from(module)) {
        return None;
    }
    Some(master)
}

// The module that alone reads a module, if one does.
fn only_reader(readers: Readers, modules: usize) -> Option<u16>
    requires { modules ≤ 65535 }
    ensures { result ≡ only_reader readers modules }
{
    match readers {
        Readers::Nobody => None,
        Readers::One(row) => {
            if row < modules {
                Some(row as u16)
            } else {
                None
            }
        }
        Readers::Many => None,
    }
}

// Whether this module was found.
fn is_found(found: Option<u16>, module: u16) -> bool
    ensures { IsTrue result ↔ (found ≡ Some «module») }
{
    match found {
        None => false,
        Some(it) => it == module,
    }
}

// Whether a module is the master of a pair.
fn is_pair_master(circuit: &Circuit, readers: &[Readers], module: u16) -> bool
    requires range { InRange circuit.now }
    requires readers { AreReaders circuit.now readers.now }
    requires low { «module» < length circuit.now.modules }
    ensures { IsTrue result ↔ IsPairMaster circuit.now «module» }
{
    let reader = only_reader(readers[usize::from(module)], circuit.modules.len());
    match reader {
        None => false,
        Some(slave) => is_found(master_of(circuit, readers, slave), module),
    }
}

/// Whether a module is the master or the slave of a pair.
pub fn is_in_pair(circuit: &Circuit, readers: &[Readers], module: u16) -> bool
    requires range { InRange circuit.now }
    requires readers { AreReaders circuit.now readers.now }
    requires low { «module» < length circuit.now.modules }
    ensures { IsTrue result ↔ InPair circuit.now «module» }
{
    if master_of(circuit, readers, module).is_some() {
        return true;
    }
    is_pair_master(circuit, readers, module)
}
