ghost use Rattle.std.specs.Prelude.{◌≡◌, ◌<◌, [], IfOk, length, slice_index_or};
ghost use Rattle.act1_circuit.specs.PairFormSteps.{AreReaders, IsBelow, noted, noted_sources, with_reader};
ghost use Rattle.act1_circuit.specs.Range.{InRange};

use crate::circuit::{Circuit, Source};
use act1_base::Memory;
use std::alloc::Global;

/// Which rows other than its own read a module, where the rows are those of the modules' pins and then
/// those of the outputs.
#[derive(Clone, Copy, Debug, PartialEq, Eq)]
pub enum Readers {
    /// No row does.
    Nobody,
    /// The row of this number alone does.
    One(usize),
    /// Several rows do.
    Many,
}

// One row more reads a module.
fn with_reader(readers: Readers, row: usize) -> Readers
    ensures { result ≡ with_reader row readers }
{
    match readers {
        Readers::Nobody => Readers::One(row),
        Readers::One(other) => {
            if other == row {
                Readers::One(row)
            } else {
                Readers::Many
            }
        }
        Readers::Many => Readers::Many,
    }
}

// A row reads a module.
fn note_module(readers: &mut Vec<Readers>, row: usize, module: u16)
    requires { «module» < length readers.old.items }
    ensures { readers.new.items ≡ noted row (Source.Module «module») readers.old.items }
{
    if usize::from(module) != row {
        readers[usize::from(module)] = with_reader(readers[usize::from(module)], row);
    }
}

// A row has a source.
fn note(readers: &mut Vec<Readers>, row: usize, source: Source)
    requires { IsBelow (length readers.old.items) source }
    ensures { readers.new.items ≡ noted row source readers.old.items }
{
    match source {
        Source::Zero => {}
        Source::One => {}
        Source::Clock => {}
        Source::Input(_) => {}
        Source::Module(module) => note_module(readers, row, module),
    }
}

// A module has its pins' sources.
fn note_pins(readers: &mut Vec<Readers>, circuit: &Circuit, module: usize)
    requires range { InRange circuit.now }
    requires low { «module» < length circuit.now.modules }
    requires all { length readers.old.items ≡ length circuit.now.modules }
    ensures { readers.new.items ≡ noted_sources «module» (slice_index_or circuit.now.modules «module» []) 8 readers.old.items }
{
    let pins = circuit.modules.as_slice()[module];
    for pin in 0..8 {
        note(readers, module, pins[pin]);
    }
}

/// For each module which other rows read it. It takes time and memory in proportion to the circuit.
pub fn readers_of(alloc: Global, circuit: &Circuit) -> Result<Vec<Readers>, Memory>
    requires { InRange circuit.now }
    ensures { IfOk result (λ readers. AreReaders circuit.now readers.items) }
{
    let modules = circuit.modules.len();
    let mut readers = vec![in alloc; Readers::Nobody; modules]?;
    for module in 0..modules {
        note_pins(&mut readers, circuit, module);
    }
    for output in 0..circuit.outputs.len() {
        note(
            &mut readers,
            modules + output,
            circuit.outputs.as_slice()[output].source,
        );
    }
    Ok(readers)
}
