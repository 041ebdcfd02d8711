ghost use Rattle.std.specs.Prelude.{◌≡◌, [], ◌∷◌, map, IfOk, IsTrue};
ghost use Rattle.std.specs.Str.{bytes_eq};
ghost use Rattle.act1_base.specs.Capped.{is_number};
ghost use Rattle.act1_base.specs.Words.{words_of};
ghost use Rattle.act1_fuses.specs.Forms.{number, is_track, track_order, track_of, pin_number, crossing, along, along_fuse, pin_fuse, out_fuse, long_fuse, pad_fuse, form_of};
ghost use Rattle.act1_fuses.specs.Forms as forms;

use crate::form::FuseLine;
use act1_base::{Items, Memory, Name, capped_number, is_name, is_number, words_of};
use act1_device::{Line, Site, Track};
use std::alloc::Global;

// Whether a word is this one.
fn is(word: &[u8], wanted: &[u8]) -> bool
    ensures { result ≡ bytes_eq word.now wanted.now }
{
    word == wanted
}

// The number of a word, where all above 65,535 count as 65,536.
fn number(word: &[u8]) -> u32
    requires { IsTrue (is_number word.now) }
    ensures { result ≡ number word.now }
{
    capped_number(word, 65_536)
}

// Whether a word is that of a track.
fn is_track(word: &[u8]) -> bool
    ensures { result ≡ is_track word.now }
{
    is(word, b"gnd") || is(word, b"vcc") || is(word, b"clk") || is_number(word)
}

// The number of a track among those of its channel.
fn track_order(word: &[u8]) -> u32
    requires { IsTrue (is_track word.now) }
    ensures { result ≡ track_order word.now }
{
    if is(word, b"gnd") {
        64
    } else if is(word, b"vcc") {
        65
    } else if is(word, b"clk") {
        66
    } else {
        number(word)
    }
}

// The track, if a site can have its number.
fn track_of(word: &[u8]) -> Option<Track>
    requires { IsTrue (is_track word.now) }
    ensures { result ≡ track_of word.now }
{
    if is(word, b"gnd") {
        return Some(Track::Gnd);
    }
    if is(word, b"vcc") {
        return Some(Track::Vcc);
    }
    if is(word, b"clk") {
        return Some(Track::Clk);
    }
    let track = number(word);
    if track <= 255 {
        Some(Track::Signal(track as u8))
    } else {
        None
    }
}

// The number of a pin, by its name.
fn pin_number(word: &[u8]) -> Option<u8>
    ensures { result ≡ pin_number word.now }
{
    if is(word, b"A0") {
        Some(0)
    } else if is(word, b"A1") {
        Some(1)
    } else if is(word, b"SA") {
        Some(2)
    } else if is(word, b"B0") {
        Some(3)
    } else if is(word, b"B1") {
        Some(4)
    } else if is(word, b"SB") {
        Some(5)
    } else if is(word, b"S0") {
        Some(6)
    } else if is(word, b"S1") {
        Some(7)
    } else {
        None
    }
}

// A pin, if a site can have its numbers.
fn pin_at(row: u32, column: u32, pin: u8) -> Option<Line>
    ensures { result ≡ forms.pin_at row column pin }
{
    if row <= 255 && column <= 255 {
        Some(Line::Pin {
            row: row as u8,
            column: column as u8,
            pin,
        })
    } else {
        None
    }
}

// An output, if a site can have its numbers.
fn out_at(row: u32, column: u32) -> Option<Line>
    ensures { result ≡ forms.out_at row column }
{
    if row <= 255 && column <= 255 {
        Some(Line::Out {
            row: row as u8,
            column: column as u8,
        })
    } else {
        None
    }
}

// A long wire, if a site can have its numbers.
fn long_at(column: u32, index: u32) -> Option<Line>
    ensures { result ≡ forms.long_at column index }
{
    if column <= 255 && index <= 255 {
        Some(Line::Long {
            column: column as u8,
            index: index as u8,
        })
    } else {
        None
    }
}

// A pad, if a site can have its number.
fn pad_at(pad: u32) -> Option<Line>
    ensures { result ≡ forms.pad_at pad }
{
    if pad <= 65_535 {
        Some(Line::Pad { pad: pad as u16 })
    } else {
        None
    }
}

// The site of a crossing, if a site can have its numbers.
fn crossing(channel: u32, track: Option<Track>, line: Option<Line>) -> Option<Site>
    ensures { result ≡ crossing channel track line }
{
    match (track, line) {
        (Some(track), Some(line)) => {
            if channel <= 255 {
                Some(Site::Cross {
                    channel: channel as u8,
                    track,
                    line,
                })
            } else {
                None
            }
        }
        _ => None,
    }
}

// The site along a signal track, if a site can have its numbers.
fn along(channel: u32, track: Option<Track>, index: u32) -> Option<Site>
    ensures { result ≡ along channel track index }
{
    match track {
        Some(Track::Signal(track)) => {
            if channel <= 255 && index <= 255 {
                Some(Site::Along {
                    channel: channel as u8,
                    track,
                    index: index as u8,
                })
            } else {
                None
            }
        }
        _ => None,
    }
}

// The antifuse along a track.
fn along_fuse(alloc: Global, channel: &[u8], track: &[u8], index: &[u8]) -> Result<FuseLine, Memory>
    requires channel { IsTrue (is_number channel.now) }
    requires track { IsTrue (is_track track.now) }
    requires index { IsTrue (is_number index.now) }
    ensures { IfOk result (λ line. line ≡ along_fuse channel.now track.now index.now) }
{
    let channel = number(channel);
    let index = number(index);
    Ok(FuseLine::Fuse {
        numbers: Items::from_slice(alloc, &[channel, track_order(track), 0, index])?,
        site: along(channel, track_of(track), index),
    })
}

// The antifuse where a pin crosses a track.
fn pin_fuse(
    alloc: Global,
    channel: &[u8],
    track: &[u8],
    row: &[u8],
    column: &[u8],
    pin: u8,
) -> Result<FuseLine, Memory>
    requires channel { IsTrue (is_number channel.now) }
    requires track { IsTrue (is_track track.now) }
    requires row { IsTrue (is_number row.now) }
    requires column { IsTrue (is_number column.now) }
    ensures { IfOk result (λ line. line ≡ pin_fuse channel.now track.now row.now column.now pin) }
{
    let channel = number(channel);
    let row = number(row);
    let column = number(column);
    let numbers = [channel, track_order(track), 1, row, column, u32::from(pin)];
    Ok(FuseLine::Fuse {
        numbers: Items::from_slice(alloc, &numbers)?,
        site: crossing(channel, track_of(track), pin_at(row, column, pin)),
    })
}

// The antifuse where an output crosses a track.
fn out_fuse(
    alloc: Global,
    channel: &[u8],
    track: &[u8],
    row: &[u8],
    column: &[u8],
) -> Result<FuseLine, Memory>
    requires channel { IsTrue (is_number channel.now) }
    requires track { IsTrue (is_track track.now) }
    requires row { IsTrue (is_number row.now) }
    requires column { IsTrue (is_number column.now) }
    ensures { IfOk result (λ line. line ≡ out_fuse channel.now track.now row.now column.now) }
{
    let channel = number(channel);
    let row = number(row);
    let column = number(column);
    let numbers = [channel, track_order(track), 2, row, column];
    Ok(FuseLine::Fuse {
        numbers: Items::from_slice(alloc, &numbers)?,
        site: crossing(channel, track_of(track), out_at(row, column)),
    })
}

// The antifuse where a long wire crosses a track.
fn long_fuse(
    alloc: Global,
    channel: &[u8],
    track: &[u8],
    column: &[u8],
    index: &[u8],
) -> Result<FuseLine, Memory>
    requires channel { IsTrue (is_number channel.now) }
    requires track { IsTrue (is_track track.now) }
    requires column { IsTrue (is_number column.now) }
    requires index { IsTrue (is_number index.now) }
    ensures { IfOk result (λ line. line ≡ long_fuse channel.now track.now column.now index.now) }
{
    let channel = number(channel);
    let column = number(column);
    let index = number(index);
    let numbers = [channel, track_order(track), 3, column, index];
    Ok(FuseLine::Fuse {
        numbers: Items::from_slice(alloc, &numbers)?,
        site: crossing(channel, track_of(track), long_at(column, index)),
    })
}

// The antifuse where a pad crosses a track.
fn pad_fuse(alloc: Global, channel: &[u8], track: &[u8], pad: &[u8]) -> Result<FuseLine, Memory>
    requires channel { IsTrue (is_number channel.now) }
    requires track { IsTrue (is_track track.now) }
    requires pad { IsTrue (is_number pad.now) }
    ensures { IfOk result (λ line. line ≡ pad_fuse channel.now track.now pad.now) }
{
    let channel = number(channel);
    let pad = number(pad);
    Ok(FuseLine::Fuse {
        numbers: Items::from_slice(alloc, &[channel, track_order(track), 4, pad])?,
        site: crossing(channel, track_of(track), pad_at(pad)),
    })
}

// `end`, or none where the word is another.
fn end_of(word: &[u8]) -> Option<FuseLine>
    ensures { result ≡ forms.end_of word.now }
{
    if is(word, b"end") {
        Some(FuseLine::End)
    } else {
        None
    }
}

// `device NAME`, or none where the words are others.
fn device_of(alloc: Global, word: &[u8], name: &[u8]) -> Result<Option<FuseLine>, Memory>
    ensures { IfOk result (λ line. line ≡ forms.device_of word.now name.now) }
{
    if is(word, b"device") && is_name(name) {
        let name = Name::new(alloc, name)?;
        return Ok(Some(FuseLine::Device { name }));
    }
    Ok(None)
}

// `clock NAME`, or none where the words are others.
fn clock_of(alloc: Global, word: &[u8], name: &[u8]) -> Result<Option<FuseLine>, Memory>
    ensures { IfOk result (λ line. line ≡ forms.clock_of word.now name.now) }
{
    if is(word, b"clock") && is_name(name) {
        let name = Name::new(alloc, name)?;
        return Ok(Some(FuseLine::Clock { name }));
    }
    Ok(None)
}

// A line of two words.
fn form_of_two(alloc: Global, word: &[u8], name: &[u8]) -> Result<Option<FuseLine>, Memory>
    ensures { IfOk result (λ line. line ≡ forms.form_of_two word.now name.now) }
{
    match device_of(alloc, word, name)? {
        Some(device) => Ok(Some(device)),
        None => clock_of(alloc, word, name),
    }
}

// `act1 fuses 1`, or none where the words are others.
fn header_of(word: &[u8], format: &[u8], version: &[u8]) -> Option<FuseLine>
    ensures { result ≡ forms.header_of word.now format.now version.now }
{
    if is(word, b"act1") && is(format, b"fuses") && is(version, b"1") {
        Some(FuseLine::Header)
    } else {
        None
    }
}

// `in PAD NAME`, or none where the words are others.
fn input_of(alloc: Global, word: &[u8], pad: &[u8], name: &[u8]) -> Result<Option<FuseLine>, Memory>
    ensures { IfOk result (λ line. line ≡ forms.input_of word.now pad.now name.now) }
{
    if is(word, b"in") && is_number(pad) && is_name(name) {
        let pad = number(pad);
        let name = Name::new(alloc, name)?;
        return Ok(Some(FuseLine::In { pad, name }));
    }
    Ok(None)
}

// `out PAD NAME`, or none where the words are others.
fn output_of(
    alloc: Global,
    word: &[u8],
    pad: &[u8],
    name: &[u8],
) -> Result<Option<FuseLine>, Memory>
    ensures { IfOk result (λ line. line ≡ forms.output_of word.now pad.now name.now) }
{
    if is(word, b"out") && is_number(pad) && is_name(name) {
        let pad = number(pad);
        let name = Name::new(alloc, name)?;
        return Ok(Some(FuseLine::Out { pad, name }));
    }
    Ok(None)
}

// An input or an output.
fn port_of(alloc: Global, word: &[u8], pad: &[u8], name: &[u8]) -> Result<Option<FuseLine>, Memory>
    ensures { IfOk result (λ line. line ≡ forms.port_of word.now pad.now name.now) }
{
    match input_of(alloc, word, pad, name)? {
        Some(input) => Ok(Some(input)),
        None => output_of(alloc, word, pad, name),
    }
}

// A line of three words.
fn form_of_three(
    alloc: Global,
    first: &[u8],
    second: &[u8],
    third: &[u8],
) -> Result<Option<FuseLine>, Memory>
    ensures { IfOk result (λ line. line ≡ forms.form_of_three first.now second.now third.now) }
{
    match header_of(first, second, third) {
        Some(header) => Ok(Some(header)),
        None => port_of(alloc, first, second, third),
    }
}

// Whether these are the words with which each antifuse begins.
fn is_fuse(word: &[u8], channel: &[u8], track: &[u8]) -> bool
    ensures { result ≡ forms.is_fuse word.now channel.now track.now }
{
    is(word, b"fuse") && is_number(channel) && is_track(track)
}

// Whether a word is a number up to 3.
fn is_init(word: &[u8]) -> bool
    ensures { result ≡ forms.is_init word.now }
{
    is_number(word) && number(word) <= 3
}

// `start ROW COLUMN INIT NAME`, or none where the words are others.
fn start_of(
    alloc: Global,
    word: &[u8],
    row: &[u8],
    column: &[u8],
    init: &[u8],
    name: &[u8],
) -> Result<Option<FuseLine>, Memory>
    ensures { IfOk result (λ line. line ≡ forms.start_of word.now row.now column.now init.now name.now) }
{
    if is(word, b"start") && is_number(row) && is_number(column) && is_init(init) && is_name(name) {
        return Ok(Some(FuseLine::Start {
            row: number(row),
            column: number(column),
            init: number(init) as u8,
            name: Name::new(alloc, name)?,
        }));
    }
    Ok(None)
}

// `fuse CHANNEL TRACK along INDEX`, or none where the words are others.
fn along_of(
    alloc: Global,
    word: &[u8],
    channel: &[u8],
    track: &[u8],
    kind: &[u8],
    index: &[u8],
) -> Result<Option<FuseLine>, Memory>
    ensures { IfOk result (λ line. line ≡ forms.along_of word.now channel.now track.now kind.now index.now) }
{
    if is_fuse(word, channel, track) && is(kind, b"along") && is_number(index) {
        return Ok(Some(along_fuse(alloc, channel, track, index)?));
    }
    Ok(None)
}

// `fuse CHANNEL TRACK pad PAD`, or none where the words are others.
fn pad_of(
    alloc: Global,
    word: &[u8],
    channel: &[u8],
    track: &[u8],
    kind: &[u8],
    pad: &[u8],
) -> Result<Option<FuseLine>, Memory>
    ensures { IfOk result (λ line. line ≡ forms.pad_of word.now channel.now track.now kind.now pad.now) }
{
    if is_fuse(word, channel, track) && is(kind, b"pad") && is_number(pad) {
        return Ok(Some(pad_fuse(alloc, channel, track, pad)?));
    }
    Ok(None)
}

// An antifuse of one number behind its kind.
fn short_fuse_of(
    alloc: Global,
    word: &[u8],
    channel: &[u8],
    track: &[u8],
    kind: &[u8],
    place: &[u8],
) -> Result<Option<FuseLine>, Memory>
    ensures { IfOk result (λ line. line ≡ forms.short_fuse_of word.now channel.now track.now kind.now place.now) }
{
    match along_of(alloc, word, channel, track, kind, place)? {
        Some(along) => Ok(Some(along)),
        None => pad_of(alloc, word, channel, track, kind, place),
    }
}

// A line of five words.
fn form_of_five(
    alloc: Global,
    first: &[u8],
    second: &[u8],
    third: &[u8],
    fourth: &[u8],
    fifth: &[u8],
) -> Result<Option<FuseLine>, Memory>
    ensures { IfOk result (λ line. line ≡ forms.form_of_five first.now second.now third.now fourth.now fifth.now) }
{
    match start_of(alloc, first, second, third, fourth, fifth)? {
        Some(start) => Ok(Some(start)),
        None => short_fuse_of(alloc, first, second, third, fourth, fifth),
    }
}

// `fuse CHANNEL TRACK out ROW COLUMN`, or none where the words are others.
fn out_of(
    alloc: Global,
    word: &[u8],
    channel: &[u8],
    track: &[u8],
    kind: &[u8],
    row: &[u8],
    column: &[u8],
) -> Result<Option<FuseLine>, Memory>
    ensures { IfOk result (λ line. line ≡ forms.out_of word.now channel.now track.now kind.now row.now column.now) }
{
    if is_fuse(word, channel, track) && is(kind, b"out") && is_number(row) && is_number(column) {
        return Ok(Some(out_fuse(alloc, channel, track, row, column)?));
    }
    Ok(None)
}

// `fuse CHANNEL TRACK long COLUMN INDEX`, or none where the words are others.
fn long_of(
    alloc: Global,
    word: &[u8],
    channel: &[u8],
    track: &[u8],
    kind: &[u8],
    column: &[u8],
    index: &[u8],
) -> Result<Option<FuseLine>, Memory>
    ensures { IfOk result (λ line. line ≡ forms.long_of word.now channel.now track.now kind.now column.now index.now) }
{
    if is_fuse(word, channel, track) && is(kind, b"long") && is_number(column) && is_number(index) {
        return Ok(Some(long_fuse(alloc, channel, track, column, index)?));
    }
    Ok(None)
}

// A line of six words.
fn form_of_six(
    alloc: Global,
    word: &[u8],
    channel: &[u8],
    track: &[u8],
    kind: &[u8],
    first: &[u8],
    second: &[u8],
) -> Result<Option<FuseLine>, Memory>
    ensures { IfOk result (λ line. line ≡ forms.form_of_six word.now channel.now track.now kind.now first.now second.now) }
{
    match out_of(alloc, word, channel, track, kind, first, second)? {
        Some(out) => Ok(Some(out)),
        None => long_of(alloc, word, channel, track, kind, first, second),
    }
}

// `fuse CHANNEL TRACK pin ROW COLUMN PIN`, or none where the words are others. The pin is that of the last
// word, if that is one's name.
fn pin_of(
    alloc: Global,
    word: &[u8],
    channel: &[u8],
    track: &[u8],
    kind: &[u8],
    row: &[u8],
    column: &[u8],
    pin: Option<u8>,
) -> Result<Option<FuseLine>, Memory>
    ensures { IfOk result (λ line. line ≡ forms.pin_of word.now channel.now track.now kind.now row.now column.now pin) }
{
    let Some(pin) = pin else {
        return Ok(None);
    };
    if is_fuse(word, channel, track) && is(kind, b"pin") && is_number(row) && is_number(column) {
        return Ok(Some(pin_fuse(alloc, channel, track, row, column, pin)?));
    }
    Ok(None)
}

// The line of these words, or none where they are of no form.
fn form_of(alloc: Global, words: &[&[u8]]) -> Result<Option<FuseLine>, Memory>
    ensures { IfOk result (λ line. line ≡ form_of (map (λ word. word.now) words.now)) }
{
    match words {
        [a] => Ok(end_of(a)),
        [a, b] => form_of_two(alloc, a, b),
        [a, b, c] => form_of_three(alloc, a, b, c),
        [a, b, c, d, e] => form_of_five(alloc, a, b, c, d, e),
        [a, b, c, d, e, f] => form_of_six(alloc, a, b, c, d, e, f),
        [a, b, c, d, e, f, g] => pin_of(alloc, a, b, c, d, e, f, pin_number(g)),
        _ => Ok(None),
    }
}

/// The line that the bytes spell, which come without their line feed, or none where they are of no
/// form of the lines of antifuse files.
pub fn read_line(alloc: Global, bytes: &[u8]) -> Result<Option<FuseLine>, Memory>
    ensures { IfOk result (λ line. line ≡ form_of (words_of bytes.now)) }
{
    let words = words_of(alloc, bytes)?;
    form_of(alloc, words.as_slice())
}
