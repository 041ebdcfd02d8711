ghost use Rattle.std.specs.Prelude.{◌≡◌, ◌++◌, ◌∷◌, [], map, IfOk, OnOk};
ghost use Rattle.std.specs.List.{flat_map};
ghost use Rattle.act1_base.specs.Words.{text_line, text_of_lines};
ghost use Rattle.act1_blif.specs.Names.{signal_name};
ghost use Rattle.act1_blif.specs.Text.{blif_text, clock_lines, control_words, latch_words, mark_byte, node_lines, output_word, row_words};

use crate::blif::{Blif, Latch, Node};
use crate::names::signal_name;
use act1_base::{Memory, Name, add_names, add_number, add_word, write_named};
use act1_logic::{Mark, Row};
use std::alloc::Global;

/// The canonical text of a netlist, which is lines of words in Berkeley's BLIF. One space parts the
/// words of a line, a line feed ends each line, and the number is decimal without leading zeros:
///
/// ```text
/// .model NAME
/// .inputs NAME ..                       the inputs
/// .outputs NAME ..                      the outputs
/// .clock NAME                           where the clock has a name
/// .latch INPUT OUTPUT re CLOCK INIT     for each latch, where the clock has a name
/// .latch INPUT OUTPUT INIT              for each latch, where it has none
/// .names INPUT .. OUTPUT                for each node, and then
/// MARKS VALUE                           for each row of its cover: a mark `0`, `1` or `-` per input
/// .end
/// ```
///
/// The rows of a node without inputs are VALUE alone. Latches, nodes and rows stand in the order in
/// which the netlist has them. That there is one text of a netlist is this project's own rule. The one
/// error is `Memory`, where no memory is left for the text.
pub fn blif_text(alloc: Global, blif: &Blif) -> Result<Vec<u8>, Memory>
    ensures { IfOk result (λ text. text.items ≡ blif_text blif.now) }
{
    let mut text = Vec::new(alloc);
    write_named(&mut text, b".model", blif.model.as_bytes())?;
    write_names(&mut text, b".inputs", blif.inputs.as_slice())?;
    write_signals(&mut text, b".outputs", blif, blif.outputs.as_slice())?;
    write_clock(&mut text, &blif.clock)?;
    write_latches(&mut text, blif, blif.latches.as_slice())?;
    write_nodes(&mut text, blif, blif.nodes.as_slice())?;
    text.extend_from_slice(b".end\n")?;
    Ok(text)
}

// Adds the names of the signals, each after a blank.
#[tactic(auto, using(act1_base::proofs::TextGrows::words_more))]
fn add_signals(text: &mut Vec<u8>, blif: &Blif, signals: &[u16]) -> Result<(), Memory>
    ensures { OnOk result (text.new.items ≡ text.old.items ++ flat_map (λ word. 32 ∷ word) (map (signal_name blif.now) signals.now)) }
{
    for signal in signals {
        add_word(text, signal_name(blif, *signal))?;
    }
    Ok(())
}

// Adds the line of a word and some names.
fn write_names(text: &mut Vec<u8>, word: &[u8], names: &[Name]) -> Result<(), Memory>
    ensures { OnOk result (text.new.items ≡ text.old.items ++ text_line (word.now ∷ names.now)) }
{
    text.extend_from_slice(word)?;
    add_names(text, names)?;
    text.push(b'\n')?;
    Ok(())
}

// Adds the line of a word and the names of some signals.
fn write_signals(
    text: &mut Vec<u8>,
    word: &[u8],
    blif: &Blif,
    signals: &[u16],
) -> Result<(), Memory>
    ensures { OnOk result (text.new.items ≡ text.old.items ++ text_line (word.now ∷ map (signal_name blif.now) signals.now)) }
{
    text.extend_from_slice(word)?;
    add_signals(text, blif, signals)?;
    text.push(b'\n')?;
    Ok(())
}

// Adds the clock's line, where the clock has a name.
fn write_clock(text: &mut Vec<u8>, clock: &Option<Name>) -> Result<(), Memory>
    ensures { OnOk result (text.new.items ≡ text.old.items ++ text_of_lines (clock_lines clock.now)) }
{
    match clock {
        Some(name) => write_named(text, b".clock", name.as_bytes()),
        None => Ok(()),
    }
}

// Adds the kind of edge and the clock, each after a blank, where the clock has a name.
fn add_control(text: &mut Vec<u8>, clock: &Option<Name>) -> Result<(), Memory>
    ensures { OnOk result (text.new.items ≡ text.old.items ++ flat_map (λ word. 32 ∷ word) (control_words clock.now)) }
{
    match clock {
        Some(name) => {
            add_word(text, b"re")?;
            add_word(text, name.as_bytes())
        }
        None => Ok(()),
    }
}

// Adds the line of a latch.
fn write_latch(text: &mut Vec<u8>, blif: &Blif, latch: &Latch) -> Result<(), Memory>
    ensures { OnOk result (text.new.items ≡ text.old.items ++ text_line (latch_words blif.now latch.now)) }
{
    text.extend_from_slice(b".latch")?;
    add_word(text, signal_name(blif, latch.input))?;
    add_word(text, latch.name.as_bytes())?;
    add_control(text, &blif.clock)?;
    add_number(text, u64::from(latch.init))?;
    text.push(b'\n')?;
    Ok(())
}

// Adds the lines of the latches.
#[tactic(auto, using(act1_base::proofs::TextGrows::text_more))]
fn write_latches(text: &mut Vec<u8>, blif: &Blif, latches: &[Latch]) -> Result<(), Memory>
    ensures { OnOk result (text.new.items ≡ text.old.items ++ text_of_lines (map (latch_words blif.now) latches.now)) }
{
    for latch in latches {
        write_latch(text, blif, latch)?;
    }
    Ok(())
}

// The byte of a mark.
fn mark_byte(mark: Mark) -> u8
    ensures { result ≡ mark_byte mark }
{
    match mark {
        Mark::Zero => b'0',
        Mark::One => b'1',
        Mark::Dash => b'-',
    }
}

// The word of a cover's output.
fn output_word(output: bool) -> &'static [u8]
    ensures { result.now ≡ output_word output }
{
    if output { b"1" } else { b"0" }
}

// Adds the bytes of the marks.
#[tactic(auto, using(act1_base::proofs::TextGrows::bytes_more))]
fn add_marks(text: &mut Vec<u8>, marks: &[Mark]) -> Result<(), Memory>
    ensures { OnOk result (text.new.items ≡ text.old.items ++ map mark_byte marks.now) }
{
    for mark in marks {
        text.push(mark_byte(*mark))?;
    }
    Ok(())
}

// Adds the line of a row.
fn write_row(text: &mut Vec<u8>, output: bool, marks: &[Mark]) -> Result<(), Memory>
    ensures { OnOk result (text.new.items ≡ text.old.items ++ text_line (row_words output marks.now)) }
{
    if marks.is_empty() {
        text.extend_from_slice(output_word(output))?;
        text.push(b'\n')?;
        return Ok(());
    }
    add_marks(text, marks)?;
    add_word(text, output_word(output))?;
    text.push(b'\n')?;
    Ok(())
}

// Adds the lines of the rows.
#[tactic(auto, using(act1_base::proofs::TextGrows::text_more))]
fn write_rows(text: &mut Vec<u8>, output: bool, rows: &[Row]) -> Result<(), Memory>
    ensures { OnOk result (text.new.items ≡ text.old.items ++ text_of_lines (map (λ row. row_words output row.marks) rows.now)) }
{
    for row in rows {
        write_row(text, output, row.marks.as_slice())?;
    }
    Ok(())
}

// Adds the lines of a node.
fn write_node(text: &mut Vec<u8>, blif: &Blif, node: &Node) -> Result<(), Memory>
    ensures { OnOk result (text.new.items ≡ text.old.items ++ text_of_lines (node_lines blif.now node.now)) }
{
    text.extend_from_slice(b".names")?;
    add_signals(text, blif, node.inputs.as_slice())?;
    add_word(text, node.name.as_bytes())?;
    text.push(b'\n')?;
    write_rows(text, node.cover.output, node.cover.rows.as_slice())?;
    Ok(())
}

// Adds the lines of the nodes.
#[tactic(auto, using(act1_base::proofs::TextGrows::lines_more))]
fn write_nodes(text: &mut Vec<u8>, blif: &Blif, nodes: &[Node]) -> Result<(), Memory>
    ensures { OnOk result (text.new.items ≡ text.old.items ++ text_of_lines (flat_map (node_lines blif.now) nodes.now)) }
{
    for node in nodes {
        write_node(text, blif, node)?;
    }
    Ok(())
}
