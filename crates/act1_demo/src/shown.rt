ghost use Rattle.std.specs.Prelude.{◌≡◌, ◌++◌, false, length, replicate, IfOk, OnOk};
ghost use Rattle.act1_blif.specs.Run.{next_state, signal, signals};
ghost use Rattle.act1_demo.specs.Shown.{AreLinesOf, AreLinesOver, digit, shown_line, vectors_of};

use act1_base::Memory;
use act1_blif::{Blif, values};
use std::alloc::Global;

/// The lines that a netlist of one input shows from the state in which each latch is 0, over sixteen
/// vectors: the input is 0 at the vectors 3, 7, 11 and 15, counted from 0, and else 1. There is a line
/// for each vector, with a character `0` or `1` for each output, which are read before the edge of the
/// clock. The vectors and the lines are this project's own.
///
/// It takes the time of sixteen calls of `values`. The one error is `Memory`, where no memory is left.
pub fn demo_lines(alloc: Global, net: &Blif) -> Result<Vec<u8>, Memory>
    requires { length net.now.inputs ≡ 1 }
    ensures { IfOk result (λ text. AreLinesOf net.now text.items) }
{
    lines_over(
        alloc,
        net,
        &[
            true, true, true, false, true, true, true, false, true, true, true, false, true, true,
            true, false,
        ],
    )
}

// The state in which each latch is 0.
fn zeros(alloc: Global, net: &Blif) -> Result<Vec<bool>, Memory>
    ensures { IfOk result (λ state. state.items ≡ replicate (length net.now.latches) false) }
{
    Ok(vec![in alloc; false; net.latches.len()]?)
}

// The value of a signal, or 0 past the last one.
fn signal_in(values: &[bool], place: u16) -> bool
    ensures { result ≡ signal values.now place }
{
    let place = usize::from(place);
    place < values.len() && values[place]
}

// What the latches hold after the edge: what their inputs are.
fn next_state(alloc: Global, net: &Blif, values: &[bool]) -> Result<Vec<bool>, Memory>
    ensures { IfOk result (λ state. state.items ≡ next_state net.now values.now) }
{
    let mut state = Vec::new(alloc);
    for latch in net.latches.as_slice() {
        state.push(signal_in(values, latch.input))?;
    }
    Ok(state)
}

// The character of a bit.
fn digit(bit: bool) -> u8
    ensures { result ≡ digit bit }
{
    if bit { b'1' } else { b'0' }
}

// Adds the line of the outputs.
fn write_outputs(text: &mut Vec<u8>, net: &Blif, values: &[bool]) -> Result<(), Memory>
    ensures { OnOk result (text.new.items ≡ text.old.items ++ shown_line (signals values.now net.now.outputs)) }
{
    for output in net.outputs.as_slice() {
        text.push(digit(signal_in(values, *output)))?;
    }
    text.push(b'\n')?;
    Ok(())
}

// The lines over such vectors, of which each is the value of the one input.
fn lines_over(alloc: Global, net: &Blif, inputs: &[bool]) -> Result<Vec<u8>, Memory>
    requires { length net.now.inputs ≡ 1 }
    ensures { IfOk result (λ text. AreLinesOver net.now (vectors_of inputs.now) text.items) }
{
    let mut state = zeros(alloc, net)?;
    let mut text = Vec::new(alloc);
    for input in inputs {
        let values = values(alloc, net, &[*input], &state)?;
        write_outputs(&mut text, net, &values)?;
        state = next_state(alloc, net, &values)?;
    }
    Ok(text)
}
