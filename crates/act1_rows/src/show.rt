use crate::answer::Answer;
use act1_base::Lines;
use std::alloc::{AllocError, Global};
use std::fmt::Write;

// Adds a word: each byte that can't be seen, and each `%`, as `%` and two digits, and a slash alone so
// too.
fn show_word(out: &mut String, word: &[u8]) -> Result<(), AllocError> {
    for byte in word {
        if *byte > 0x7E || *byte < 0x21 || *byte == b'%' || word == b"/".as_slice() {
            write!(out, "%{:02X}", *byte)?;
        } else {
            out.push(char::from(*byte))?;
        }
    }
    Ok(())
}

// Adds a line, with the blanks between its words. One at its end is shown as `%20`.
fn show_line(out: &mut String, line: &[u8]) -> Result<(), AllocError> {
    let (front, last) = match line.strip_suffix(b" ") {
        Some(front) => (front, "%20"),
        None => (line, ""),
    };
    for (place, word) in front.split(|byte| *byte == b' ').enumerate() {
        if place > 0 {
            out.push(' ')?;
        }
        show_word(out, word)?;
    }
    out.push_str(last)
}

// What stands behind the last line: a word where it has no line feed.
fn ending(bytes: &[u8]) -> &'static str {
    match bytes.last() {
        Some(byte) if *byte != b'\n' => " %end",
        _ => "",
    }
}

// Content of more lines than these is shown by the first words of its lines.
const MOST_LINES: usize = 1_000;

// Whether content is shown so.
fn is_long(bytes: &[u8]) -> bool {
    let mut left = MOST_LINES;
    for _line in Lines::new(bytes) {
        if left == 0 {
            return true;
        }
        left -= 1;
    }
    false
}

// The first word of a line.
fn first_word(line: &[u8]) -> &[u8] {
    match line.split(|byte| *byte == b' ').next() {
        Some(word) => word,
        None => line,
    }
}

// Adds, for lines one after the other that begin with the same word, their number and that word.
fn show_many(out: &mut String, bytes: &[u8]) -> Result<(), AllocError> {
    let mut word: &[u8] = b"";
    let mut count = 0u64;
    for line in Lines::new(bytes) {
        let next = first_word(line);
        if count > 0 && next != word {
            show_count(out, count, word)?;
            out.push(' ')?;
            count = 0;
        }
        word = next;
        count = count.saturating_add(1);
    }
    show_count(out, count, word)
}

// Adds a number of lines, and the word with which each of them begins.
fn show_count(out: &mut String, count: u64, word: &[u8]) -> Result<(), AllocError> {
    write!(out, "%{count} ")?;
    show_word(out, word)
}

/// Adds content as one line: a slash parts its lines, and stands for an empty one.
pub fn show_text(out: &mut String, bytes: &[u8]) -> Result<(), AllocError> {
    if is_long(bytes) {
        return show_many(out, bytes);
    }
    let mut is_first = true;
    let mut is_inside = false;
    for line in Lines::new(bytes) {
        if is_inside {
            out.push_str(" /")?;
        }
        if !is_first {
            out.push(' ')?;
        }
        is_first = false;
        if line.is_empty() {
            out.push('/')?;
        } else {
            show_line(out, line)?;
        }
        is_inside = !line.is_empty();
    }
    out.push_str(ending(bytes))
}

// Adds content with each of its lines behind a bar.
fn show_block(out: &mut String, bytes: &[u8]) -> Result<(), AllocError> {
    if is_long(bytes) {
        show_many(out, bytes)?;
        return out.push('\n');
    }
    for line in Lines::new(bytes) {
        if line.is_empty() {
            out.push_str("|\n")?;
        } else {
            out.push_str("| ")?;
            show_line(out, line)?;
            out.push('\n')?;
        }
    }
    match ending(bytes) {
        "" => Ok(()),
        ending => writeln!(out, "|{ending}"),
    }
}

/// Adds an answer, with each line of what was printed and of each file behind a bar, and the calls of helpers between them.
pub fn show_answer(out: &mut String, answer: &Answer) -> Result<(), AllocError> {
    writeln!(out, "status {}", answer.status)?;
    show_block(out, &answer.printed)?;
    out.push_str(answer.story.as_str())?;
    for file in &answer.changed {
        match &file.bytes {
            Some(bytes) => {
                writeln!(out, "file {} holds", file.name)?;
                show_block(out, bytes)?;
            }
            None => writeln!(out, "file {} is gone", file.name)?,
        }
    }
    Ok(())
}

/// An answer as one line.
pub fn short_answer(alloc: Global, answer: &Answer) -> Result<String, AllocError> {
    let mut out = format!(in alloc; "{}", answer.status)?;
    if !answer.printed.is_empty() {
        out.push_str(" ")?;
        show_text(&mut out, &answer.printed)?;
    }
    for file in &answer.changed {
        match &file.bytes {
            Some(bytes) => {
                write!(out, " %file {} holds ", file.name)?;
                show_text(&mut out, bytes)?;
            }
            None => write!(out, " %file {} is gone", file.name)?,
        }
    }
    Ok(out)
}
