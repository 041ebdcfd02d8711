ghost use Rattle.std.specs.Prelude.{◌≡◌, ◌<◌, IfOk, length};
ghost use Rattle.act1_circuit.specs.PairForm.{has_clock, is_clock, pin_of, pins_of};
ghost use Rattle.act1_meaning.specs.Extracted.{different, is_constant, is_same, is_slave};
ghost use Rattle.act1_circuit.specs.declared.circuit.Source.TheVariants as the;
ghost use Rattle.act1_extract.specs.Parts.{with_source};

use act1_base::{Items, Memory};
use act1_circuit::{Circuit, Source};
use std::alloc::Global;

// Whether a source is ground.
fn is_zero(source: Source) -> bool
    ensures { result ≡ is_same the.Zero source }
{
    match source {
        Source::Zero => true,
        Source::One => false,
        Source::Clock => false,
        Source::Input(_) => false,
        Source::Module(_) => false,
    }
}

// Whether a source is power.
fn is_one(source: Source) -> bool
    ensures { result ≡ is_same the.One source }
{
    match source {
        Source::Zero => false,
        Source::One => true,
        Source::Clock => false,
        Source::Input(_) => false,
        Source::Module(_) => false,
    }
}

// Whether a source is the clock.
fn is_clock(source: Source) -> bool
    ensures same { result ≡ is_same the.Clock source }
    ensures clock { result ≡ is_clock source }
{
    match source {
        Source::Zero => false,
        Source::One => false,
        Source::Clock => true,
        Source::Input(_) => false,
        Source::Module(_) => false,
    }
}

// Whether a source is this input.
fn is_input(input: u16, source: Source) -> bool
    ensures { result ≡ is_same (the.Input input) source }
{
    match source {
        Source::Zero => false,
        Source::One => false,
        Source::Clock => false,
        Source::Input(other) => input == other,
        Source::Module(_) => false,
    }
}

// Whether a source is this module.
fn is_module(module: u16, source: Source) -> bool
    ensures { result ≡ is_same (the.Module «module») source }
{
    match source {
        Source::Zero => false,
        Source::One => false,
        Source::Clock => false,
        Source::Input(_) => false,
        Source::Module(other) => module == other,
    }
}

/// Whether two sources are the same.
pub fn is_same(source: Source, other: Source) -> bool
    ensures { result ≡ is_same source other }
{
    match source {
        Source::Zero => is_zero(other),
        Source::One => is_one(other),
        Source::Clock => is_clock(other),
        Source::Input(input) => is_input(input, other),
        Source::Module(module) => is_module(module, other),
    }
}

// Whether a source is a constant.
fn is_constant(source: Source) -> bool
    ensures { result ≡ is_constant source }
{
    match source {
        Source::Zero => true,
        Source::One => true,
        Source::Clock => false,
        Source::Input(_) => false,
        Source::Module(_) => false,
    }
}

// The source before those others that differ from it, unless it is a constant.
fn with_source(alloc: Global, source: Source, others: &[Source]) -> Result<Items<Source>, Memory>
    ensures { IfOk result (λ all. all ≡ with_source source others.now) }
{
    if is_constant(source) {
        return Items::from_slice(alloc, others);
    }
    let mut all = Vec::new(alloc);
    all.push(source)?;
    let rest: Vec<Source> = others
        .iter()
        .copied()
        .filter(|other| !is_same(source, *other))
        .collect(alloc)?;
    all.extend_from_slice(rest.as_slice())?;
    Ok(Items::from_vec(all))
}

/// The different sources of a module's pins that aren't constants, in the order of their first pins.
pub fn different(alloc: Global, pins: &[Source]) -> Result<Items<Source>, Memory>
    ensures { IfOk result (λ all. all ≡ different pins.now) }
{
    let mut all = Items::new(alloc);
    for at in 0..pins.len() {
        all = with_source(alloc, pins[pins.len() - 1 - at], all.as_slice())?;
    }
    Ok(all)
}

/// The sources of a module's pins.
pub fn pins_of(circuit: &Circuit, module: u16) -> [Source; 8]
    requires { «module» < length circuit.now.modules }
    ensures { result ≡ pins_of circuit.now «module» }
{
    circuit.modules.as_slice()[usize::from(module)]
}

/// The source of a pin.
pub fn pin_of(circuit: &Circuit, module: u16, pin: usize) -> Source
    requires low { «module» < length circuit.now.modules }
    requires pin { pin < 8 }
    ensures { result ≡ pin_of circuit.now «module» pin }
{
    circuit.modules.as_slice()[usize::from(module)][pin]
}

/// Whether the clock is on a pin of a module.
pub fn has_clock(circuit: &Circuit, module: u16) -> bool
    requires { «module» < length circuit.now.modules }
    ensures { result ≡ has_clock circuit.now «module» }
{
    let modules = circuit.modules.as_slice();
    modules[usize::from(module)]
        .iter()
        .any(|pin| is_clock(*pin))
}

/// Whether a module has the clock at S0 and its own output at A0, as a slave has.
pub fn is_slave(circuit: &Circuit, module: u16) -> bool
    requires { «module» < length circuit.now.modules }
    ensures { result ≡ is_slave circuit.now «module» }
{
    is_clock(pin_of(circuit, module, 6)) && is_module(module, pin_of(circuit, module, 0))
}
