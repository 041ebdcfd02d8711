use crate::answer::{Answer, answer_of};
use crate::fault::{Fault, Stop};
use crate::rows::{NumberedLine, Row, Shown};
use crate::setting::Setting;
use crate::show::{short_answer, show_answer};
use std::alloc::{AllocError, Global};
use std::fmt::Write;
use std::rt::Files;

// A line with a case in the place of each `@`.
fn with_case(alloc: Global, line: &str, case: &str) -> Result<String, AllocError> {
    let mut text = String::new(alloc);
    for (place, piece) in line.split('@').enumerate() {
        if place > 0 {
            text.push_str(case)?;
        }
        text.push_str(piece)?;
    }
    Ok(text)
}

// Takes lines, each with a case in the place of its `@`.
fn take_lines<R: Files>(
    rt: &R,
    alloc: Global,
    setting: &mut Setting,
    lines: &[NumberedLine<'_>],
    case: &str,
) -> Result<(), Stop> {
    for line in lines {
        let text = with_case(alloc, line.text, case)?;
        if let Err(fault) = setting.take_line(rt, text.as_str()) {
            let line = line.number;
            return Err(Stop { line, fault });
        }
    }
    Ok(())
}

// What a row sets up, at a case.
fn setting_of<R: Files>(
    rt: &R,
    alloc: Global,
    head: &[NumberedLine<'_>],
    row: &Row<'_>,
    case: &str,
) -> Result<Setting, Stop> {
    let mut setting = Setting::new(alloc);
    take_lines(rt, alloc, &mut setting, head, case)?;
    take_lines(rt, alloc, &mut setting, &row.lines, case)?;
    Ok(setting)
}

// The cuts whose answer is the same, one after the other: the first and the last of them.
#[derive(Drop)]
struct CutRange {
    first: u64,
    last: u64,
    answer: String,
}

// Adds a line for a range of cuts.
fn show_range(out: &mut String, range: &CutRange) -> Result<(), AllocError> {
    let CutRange {
        first,
        last,
        answer,
    } = range;
    if first == last {
        writeln!(out, "{first}: {answer}")
    } else {
        writeln!(out, "{first} to {last}: {answer}")
    }
}

// What a setting's run answers, as far as it is shown.
fn shown_of(alloc: Global, setting: &Setting, shown: Shown) -> Result<Answer, Fault> {
    let mut answer = answer_of(alloc, setting)?;
    if shown != Shown::Whole {
        answer.changed = Vec::new(alloc);
        answer.story = String::new(alloc);
    }
    if shown == Shown::Status {
        answer.printed = Vec::new(alloc);
    }
    Ok(answer)
}

// What a setting's run answers, in one line.
fn short_of(alloc: Global, setting: &Setting) -> Result<String, Fault> {
    let answer = answer_of(alloc, setting)?;
    Ok(short_answer(alloc, &answer)?)
}

// What the run answers on a front of the file of this name, in one line.
fn front_answer(
    alloc: Global,
    setting: &mut Setting,
    name: &str,
    front: &[u8],
) -> Result<String, Fault> {
    setting.set_file(name, front)?;
    short_of(alloc, setting)
}

// Adds a line for each range of fronts of a file that have one answer.
fn play_cuts(
    alloc: Global,
    setting: &mut Setting,
    name: &str,
    out: &mut String,
) -> Result<(), Fault> {
    let Some(whole) = setting.files.remove(name) else {
        return Err(Fault::File);
    };
    let mut range: Option<CutRange> = None;
    for length in 0..=whole.len() {
        let answer = front_answer(alloc, setting, name, &whole[..length])?;
        range = Some(next_range(out, range, length as u64, answer)?);
    }
    match &range {
        Some(range) => Ok(show_range(out, range)?),
        None => Ok(()),
    }
}

// The range with one more cut: the same one where the answer is the same, and else a new one, once the one
// before is shown.
fn next_range(
    out: &mut String,
    range: Option<CutRange>,
    cut: u64,
    answer: String,
) -> Result<CutRange, AllocError> {
    let mut first = cut;
    if let Some(range) = range {
        if range.answer == answer {
            first = range.first;
        } else {
            show_range(out, &range)?;
        }
    }
    let last = cut;
    Ok(CutRange {
        first,
        last,
        answer,
    })
}

// Adds the line of a case.
fn play_case<R: Files>(
    rt: &R,
    alloc: Global,
    head: &[NumberedLine<'_>],
    row: &Row<'_>,
    case: &str,
    out: &mut String,
) -> Result<(), Stop> {
    let setting = setting_of(rt, alloc, head, row, case)?;
    let answer = shown_of(alloc, &setting, row.shown)?;
    let short = short_answer(alloc, &answer)?;
    writeln!(out, "{case} => {short}")?;
    Ok(())
}

// Adds what is shown of a row without cases.
fn play_whole<R: Files>(
    rt: &R,
    alloc: Global,
    head: &[NumberedLine<'_>],
    row: &Row<'_>,
    out: &mut String,
) -> Result<(), Stop> {
    let mut setting = setting_of(rt, alloc, head, row, "")?;
    match row.cuts {
        Some(name) => play_cuts(alloc, &mut setting, name, out)?,
        None => show_answer(out, &shown_of(alloc, &setting, row.shown)?)?,
    }
    Ok(())
}

/// Plays a row behind the lines that hold for every row of its file, and adds what is shown of it. An
/// error says at which line the row can't be played.
pub fn play_row<R: Files>(
    rt: &R,
    alloc: Global,
    head: &[NumberedLine<'_>],
    row: &Row<'_>,
    out: &mut String,
) -> Result<(), Stop> {
    writeln!(out, "\n-- {}", row.name)?;
    for case in &row.cases {
        play_case(rt, alloc, head, row, case, out)?;
    }
    if row.cases.is_empty() {
        play_whole(rt, alloc, head, row, out)?;
    }
    Ok(())
}
