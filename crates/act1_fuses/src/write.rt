ghost use Rattle.std.specs.Prelude.{◌≡◌, ◌++◌, ◌∷◌, [], codes, map, IfOk, OnOk};
ghost use Rattle.std.specs.Fmt.{decimal};
ghost use Rattle.std.specs.List.{flat_map};
ghost use Rattle.act1_base.specs.Words.{text_line, text_of_lines};
ghost use Rattle.act1_fuses.specs.Text.{fuse_text, clock_lines, port_words, start_words, site_words, line_words, track_word};

use crate::fuses::{FuseFile, Port, StartAt};
use act1_base::{Memory, Name, add_number, add_word, write_named};
use act1_device::{Line, Site, Track, name_of_pin};
use std::alloc::Global;

/// The one text of an antifuse file, which is lines of words. One space parts the words of a line,
/// a line feed ends each line, and numbers are decimal without leading zeros:
///
/// ```text
/// act1 fuses 1
/// device NAME
/// clock NAME                            where the file has a clock
/// in PAD NAME                           for each input
/// out PAD NAME                          for each output
/// start ROW COLUMN INIT NAME            for each start
/// fuse CHANNEL TRACK along INDEX        for each site, one of these five
/// fuse CHANNEL TRACK pin ROW COLUMN PIN
/// fuse CHANNEL TRACK out ROW COLUMN
/// fuse CHANNEL TRACK long COLUMN INDEX
/// fuse CHANNEL TRACK pad PAD
/// end
/// ```
///
/// TRACK is a number, `gnd`, `vcc` or `clk`, and PIN is A0, A1, SA, B0, B1, SB, S0 or S1. The format
/// is this project's own.
///
/// Whether the file keeps the rules of antifuse files isn't looked at: what it holds is written, in
/// its order. A pin above 7, which no device has, is written as an empty word. The one error is
/// `Memory`, where no memory is left for the text.
pub fn write_fuses(alloc: Global, file: &FuseFile) -> Result<Vec<u8>, Memory>
    ensures { IfOk result (λ text. text.items ≡ fuse_text file.now) }
{
    let mut text = Vec::new(alloc);
    add_file(&mut text, file)?;
    Ok(text)
}

// Adds the text of a file.
fn add_file(text: &mut Vec<u8>, file: &FuseFile) -> Result<(), Memory>
    ensures { OnOk result (text.new.items ≡ text.old.items ++ fuse_text file.now) }
{
    text.extend_from_slice(b"act1 fuses 1\n")?;
    write_device(text, &file.device)?;
    write_clock(text, &file.clock)?;
    write_ports(text, b"in", file.ins.as_slice())?;
    write_ports(text, b"out", file.outs.as_slice())?;
    write_starts(text, file.starts.as_slice())?;
    write_sites(text, file.sites.as_slice())?;
    text.extend_from_slice(b"end\n")?;
    Ok(())
}

// Adds the device's line.
fn write_device(text: &mut Vec<u8>, name: &Name) -> Result<(), Memory>
    ensures { OnOk result (text.new.items ≡ text.old.items ++ text_line (codes "device" ∷ name.now ∷ [])) }
{
    write_named(text, b"device", name.as_bytes())
}

// Adds the clock's line, if there is a clock.
fn write_clock(text: &mut Vec<u8>, clock: &Option<Name>) -> Result<(), Memory>
    ensures { OnOk result (text.new.items ≡ text.old.items ++ text_of_lines (clock_lines clock.now)) }
{
    match clock {
        Some(name) => write_named(text, b"clock", name.as_bytes()),
        None => Ok(()),
    }
}

// Adds the line of an input or an output.
fn write_port(text: &mut Vec<u8>, word: &[u8], port: &Port) -> Result<(), Memory>
    ensures { OnOk result (text.new.items ≡ text.old.items ++ text_line (port_words word.now port.now)) }
{
    text.extend_from_slice(word)?;
    add_number(text, u64::from(port.pad))?;
    add_word(text, port.name.as_bytes())?;
    text.push(b'\n')?;
    Ok(())
}

// Adds the lines of the inputs or of the outputs.
#[tactic(auto, using(act1_base::proofs::TextGrows::text_more))]
fn write_ports(text: &mut Vec<u8>, word: &[u8], ports: &[Port]) -> Result<(), Memory>
    ensures { OnOk result (text.new.items ≡ text.old.items ++ text_of_lines (map (port_words word.now) ports.now)) }
{
    for port in ports {
        write_port(text, word, port)?;
    }
    Ok(())
}

// Adds the line of a start.
fn write_start(text: &mut Vec<u8>, start: &StartAt) -> Result<(), Memory>
    ensures { OnOk result (text.new.items ≡ text.old.items ++ text_line (start_words start.now)) }
{
    text.extend_from_slice(b"start")?;
    add_number(text, u64::from(start.spot.row))?;
    add_number(text, u64::from(start.spot.column))?;
    add_number(text, u64::from(start.init))?;
    add_word(text, start.name.as_bytes())?;
    text.push(b'\n')?;
    Ok(())
}

// Adds the lines of the starts.
#[tactic(auto, using(act1_base::proofs::TextGrows::text_more))]
fn write_starts(text: &mut Vec<u8>, starts: &[StartAt]) -> Result<(), Memory>
    ensures { OnOk result (text.new.items ≡ text.old.items ++ text_of_lines (map start_words starts.now)) }
{
    for start in starts {
        write_start(text, start)?;
    }
    Ok(())
}

// Adds a blank and the word of a track.
fn add_track(text: &mut Vec<u8>, track: Track) -> Result<(), Memory>
    ensures { OnOk result (text.new.items ≡ text.old.items ++ 32 ∷ track_word track) }
{
    match track {
        Track::Signal(number) => add_number(text, u64::from(number)),
        Track::Gnd => add_word(text, b"gnd"),
        Track::Vcc => add_word(text, b"vcc"),
        Track::Clk => add_word(text, b"clk"),
    }
}

// Adds the words of a vertical line, each after a blank.
fn add_vertical_line(text: &mut Vec<u8>, line: Line) -> Result<(), Memory>
    ensures { OnOk result (text.new.items ≡ text.old.items ++ flat_map (λ word. 32 ∷ word) (line_words line)) }
{
    match line {
        Line::Pin { row, column, pin } => {
            add_word(text, b"pin")?;
            add_number(text, u64::from(row))?;
            add_number(text, u64::from(column))?;
            add_word(text, name_of_pin(pin))
        }
        Line::Out { row, column } => {
            add_word(text, b"out")?;
            add_number(text, u64::from(row))?;
            add_number(text, u64::from(column))
        }
        Line::Long { column, index } => {
            add_word(text, b"long")?;
            add_number(text, u64::from(column))?;
            add_number(text, u64::from(index))
        }
        Line::Pad { pad } => {
            add_word(text, b"pad")?;
            add_number(text, u64::from(pad))
        }
    }
}

// Adds the line of the antifuse at a site.
fn write_site(text: &mut Vec<u8>, site: Site) -> Result<(), Memory>
    ensures { OnOk result (text.new.items ≡ text.old.items ++ text_line (site_words site)) }
{
    text.extend_from_slice(b"fuse")?;
    match site {
        Site::Along {
            channel,
            track,
            index,
        } => {
            add_number(text, u64::from(channel))?;
            add_number(text, u64::from(track))?;
            add_word(text, b"along")?;
            add_number(text, u64::from(index))?;
        }
        Site::Cross {
            channel,
            track,
            line,
        } => {
            add_number(text, u64::from(channel))?;
            add_track(text, track)?;
            add_vertical_line(text, line)?;
        }
    }
    text.push(b'\n')?;
    Ok(())
}

// Adds the lines of the antifuses at these sites.
#[tactic(auto, using(act1_base::proofs::TextGrows::text_more))]
fn write_sites(text: &mut Vec<u8>, sites: &[Site]) -> Result<(), Memory>
    ensures { OnOk result (text.new.items ≡ text.old.items ++ text_of_lines (map site_words sites.now)) }
{
    for site in sites {
        write_site(text, *site)?;
    }
    Ok(())
}
