ghost use Rattle.std.specs.Prelude.{◌≡◌, ◌≤◌, ◌<◌, ◌-◌, ◌++◌, ◌∷◌, [], map, IfOk, OnOk};
ghost use Rattle.std.specs.List.{flat_map, range_with_len};
ghost use Rattle.act1_base.specs.Words.{text_line, text_of_lines};
ghost use Rattle.act1_demo.specs.Text.{bit_lines, both_lines, copy_lines, demo_text, differ_lines, latch_words, names_words, output_words, parity_lines, parity_step, row_words, state_name};
ghost use Rattle.act1_demo.specs.TextSteps.{wire_name};

use crate::wire::{Wire, add_wire, carry, parity_after, parity_before};
use act1_base::{Memory, add_word, write_named, write_word};
use std::alloc::Global;

/// A counter of so many bits in Berkeley's BLIF, with an input that enables it, its bits as outputs and
/// their parity as the last output. Its bit 0 changes where it is enabled, and each other bit where the
/// one before it changes from 1 to 0:
///
/// ```text
/// .model counter
/// .inputs en
/// .outputs q0 .. par
/// .latch d0 q0 re clk 0        for each bit
/// .names en q0 d0              for each bit: whether exactly one of the two is 1
/// 10 1
/// 01 1
/// .names en q0 c1              for each bit but the last: whether both are 1
/// 11 1
/// .names q0 q1 p1              for each bit but the first, and the last of these gives par
/// 10 1
/// 01 1
/// .end
/// ```
///
/// The counter of one bit has `.names q0 par` with the row `1 1` in place of the last kind. The
/// counter is this project's own. The one error is `Memory`, where no memory is left for the text.
pub fn demo_blif(alloc: Global, bits: u8) -> Result<Vec<u8>, Memory>
    requires low { 1 ≤ bits }
    requires high { bits ≤ 64 }
    ensures { IfOk result (λ text. text.items ≡ demo_text bits) }
{
    let mut text = Vec::new(alloc);
    write_named(&mut text, b".model", b"counter")?;
    write_named(&mut text, b".inputs", b"en")?;
    write_outputs(&mut text, bits)?;
    write_latches(&mut text, bits)?;
    write_bits(&mut text, bits)?;
    write_parity(&mut text, bits)?;
    write_word(&mut text, b".end")?;
    Ok(text)
}

// Adds the names of the bits, each after a blank.
#[tactic(auto, using(crate::proofs::RangeTexts::words_range))]
fn add_states(text: &mut Vec<u8>, bits: u8) -> Result<(), Memory>
    ensures { OnOk result (text.new.items ≡ text.old.items ++ flat_map (λ word. 32 ∷ word) (map state_name (range_with_len 0 bits))) }
{
    for bit in 0..bits {
        add_wire(text, Wire::State(bit))?;
    }
    Ok(())
}

// Adds the line of the outputs: the bits and their parity.
fn write_outputs(text: &mut Vec<u8>, bits: u8) -> Result<(), Memory>
    ensures { OnOk result (text.new.items ≡ text.old.items ++ text_line (output_words bits)) }
{
    text.extend_from_slice(b".outputs")?;
    add_states(text, bits)?;
    add_wire(text, Wire::Whole)?;
    text.push(b'\n')?;
    Ok(())
}

// Adds the kind of edge, the clock and the start, each after a blank.
fn add_control(text: &mut Vec<u8>, edge: &[u8], clock: &[u8], start: &[u8]) -> Result<(), Memory>
    ensures { OnOk result (text.new.items ≡ text.old.items ++ 32 ∷ (edge.now ++ 32 ∷ (clock.now ++ 32 ∷ start.now))) }
{
    add_word(text, edge)?;
    add_word(text, clock)?;
    add_word(text, start)
}

// Adds the line of a bit's latch.
fn write_latch(text: &mut Vec<u8>, bit: u8) -> Result<(), Memory>
    ensures { OnOk result (text.new.items ≡ text.old.items ++ text_line (latch_words bit)) }
{
    text.extend_from_slice(b".latch")?;
    add_wire(text, Wire::Data(bit))?;
    add_wire(text, Wire::State(bit))?;
    add_control(text, b"re", b"clk", b"0")?;
    text.push(b'\n')?;
    Ok(())
}

// Adds the lines of all latches.
#[tactic(auto, using(crate::proofs::RangeTexts::lines_range))]
fn write_latches(text: &mut Vec<u8>, bits: u8) -> Result<(), Memory>
    ensures { OnOk result (text.new.items ≡ text.old.items ++ text_of_lines (map latch_words (range_with_len 0 bits))) }
{
    for bit in 0..bits {
        write_latch(text, bit)?;
    }
    Ok(())
}

// Adds the line of a function of two signals, before its rows.
fn write_names(text: &mut Vec<u8>, first: Wire, second: Wire, output: Wire) -> Result<(), Memory>
    ensures { OnOk result (text.new.items ≡ text.old.items ++ text_line (names_words (wire_name first ∷ wire_name second ∷ []) (wire_name output))) }
{
    text.extend_from_slice(b".names")?;
    add_wire(text, first)?;
    add_wire(text, second)?;
    add_wire(text, output)?;
    text.push(b'\n')?;
    Ok(())
}

// Adds a row where the output is 1.
fn write_row(text: &mut Vec<u8>, marks: &[u8]) -> Result<(), Memory>
    ensures { OnOk result (text.new.items ≡ text.old.items ++ text_line (row_words marks.now)) }
{
    write_named(text, marks, b"1")
}

// Adds the lines of a signal that is 1 where exactly one of two is.
fn write_differ(text: &mut Vec<u8>, first: Wire, second: Wire, output: Wire) -> Result<(), Memory>
    ensures { OnOk result (text.new.items ≡ text.old.items ++ text_of_lines (differ_lines (wire_name first) (wire_name second) (wire_name output))) }
{
    write_names(text, first, second, output)?;
    write_row(text, b"10")?;
    write_row(text, b"01")
}

// Adds the lines of a signal that is 1 where two are.
fn write_both(text: &mut Vec<u8>, first: Wire, second: Wire, output: Wire) -> Result<(), Memory>
    ensures { OnOk result (text.new.items ≡ text.old.items ++ text_of_lines (both_lines (wire_name first) (wire_name second) (wire_name output))) }
{
    write_names(text, first, second, output)?;
    write_row(text, b"11")
}

// Adds the lines of a bit: what it will be, and whether the next one changes.
fn write_bit(text: &mut Vec<u8>, bits: u8, bit: u8) -> Result<(), Memory>
    requires { bit < bits }
    ensures { OnOk result (text.new.items ≡ text.old.items ++ text_of_lines (bit_lines bits bit)) }
{
    write_differ(text, carry(bit), Wire::State(bit), Wire::Data(bit))?;
    if bit + 1 == bits {
        return Ok(());
    }
    write_both(text, carry(bit), Wire::State(bit), carry(bit + 1))
}

// Adds the lines of all bits.
#[tactic(auto, using(crate::proofs::RangeTexts::some_lines_range))]
fn write_bits(text: &mut Vec<u8>, bits: u8) -> Result<(), Memory>
    ensures { OnOk result (text.new.items ≡ text.old.items ++ text_of_lines (flat_map (bit_lines bits) (range_with_len 0 bits))) }
{
    for bit in 0..bits {
        write_bit(text, bits, bit)?;
    }
    Ok(())
}

// Adds the lines of the parity up to a bit.
fn write_parity_step(text: &mut Vec<u8>, bits: u8, bit: u8) -> Result<(), Memory>
    requires low { 1 ≤ bit }
    requires high { bit < bits }
    ensures { OnOk result (text.new.items ≡ text.old.items ++ text_of_lines (parity_step bits bit)) }
{
    write_differ(
        text,
        parity_before(bit),
        Wire::State(bit),
        parity_after(bits, bit),
    )
}

// Adds the lines of the parity of all bits but the first.
#[tactic(auto, using(crate::proofs::RangeTexts::later_lines))]
fn write_parity_steps(text: &mut Vec<u8>, bits: u8) -> Result<(), Memory>
    requires { 1 ≤ bits }
    ensures { OnOk result (text.new.items ≡ text.old.items ++ text_of_lines (flat_map (parity_step bits) (range_with_len 1 (bits - 1)))) }
{
    for bit in 1..bits {
        write_parity_step(text, bits, bit)?;
    }
    Ok(())
}

// Adds the lines of a signal that is another one.
fn write_copy(text: &mut Vec<u8>, input: Wire, output: Wire) -> Result<(), Memory>
    ensures { OnOk result (text.new.items ≡ text.old.items ++ text_of_lines (copy_lines (wire_name input) (wire_name output))) }
{
    text.extend_from_slice(b".names")?;
    add_wire(text, input)?;
    add_wire(text, output)?;
    text.push(b'\n')?;
    write_row(text, b"1")
}

// Adds the lines of the parity.
fn write_parity(text: &mut Vec<u8>, bits: u8) -> Result<(), Memory>
    requires { 1 ≤ bits }
    ensures { OnOk result (text.new.items ≡ text.old.items ++ text_of_lines (parity_lines bits)) }
{
    if bits == 1 {
        return write_copy(text, Wire::State(0), Wire::Whole);
    }
    write_parity_steps(text, bits)
}
