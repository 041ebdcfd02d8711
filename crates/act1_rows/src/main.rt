//! Rows of data for the top call. Each row names words, files in memory and calls that are to fail;
//! `run` is called on them, and what it answers, prints and writes is printed.
//!
//! The words of the command line are the names of files of rows. Such a file has these lines; a line that
//! is empty or begins with `#` says nothing.
//!
//! | Line | What it says |
//! |---|---|
//! | `row NAME` | a row begins; what stands before the first row holds for every row of the file |
//! | `words WORD ..` | the words |
//! | `file NAME holds TEXT` | a file, with this content |
//! | `file NAME copies PATH` | a file, with the content of a file of the data folder |
//! | `file NAME repeats N WORD` | a file, with a word so many times |
//! | `then holds TEXT` and its like | the last file goes on with this content |
//! | `line K becomes TEXT`, `line K goes` | the last file's line K is another, or is left out |
//! | `cut N` | the last file ends after N bytes |
//! | `fail files N`, `fail print N`, `fail helpers N` | the Nth call of the files, of what is printed to, or of helpers, fails |
//! | `tear N M` | the Nth call of the files fails, and leaves the first M bytes of what it writes |
//! | `answer TEXT` | the answer of one helper more: the first is that of the start that succeeds as the first, and so on |
//! | `case TEXT` | the row is run once for each case, which stands wherever the row has an `@` |
//! | `printed`, `statuses` | of each answer only the status and what was printed are shown, or only the status |
//! | `cuts NAME` | the row is run once for each front of this file, from none of its bytes to all |
//!
//! In a TEXT the word `/` ends a line, as does the end of the text; the word `%end` at its end says that
//! the last line has no line feed. `%` and two digits stand for a byte, and `%` alone for an empty word.
//!
//! A row is printed with its status, what was printed, the calls of helpers, a line each, and each file that changed or
//! appeared; each line of what was printed or of a file stands behind a bar. A case, or cuts with one answer, is one line, in which content stands as in a TEXT.
#![tactic(auto)]

mod answer;
mod fault;
mod play;
mod rows;
mod setting;
mod show;
mod story;
mod text;

use fault::{Fault, Stop};
use play::play_row;
use rows::{NumberedLine, Row, read_rows};
use setting::data_file;
use std::alloc::{AllocError, Global};
use std::process::ExitCode;
use std::rt::{Env, Files};
use std::{env, str};

// The words after the program's name: none where they can't be had.
fn words<R: Env + AllocGlobal>(rt: &R) -> Result<Vec<String>, AllocError> {
    match env::args(rt) {
        Ok(args) => args.skip(1).collect(rt.alloc()),
        Err(_) => Ok(Vec::new(rt.alloc())),
    }
}

// Plays a row, and prints it.
fn print_row<R: Files + Print>(
    rt: &R,
    alloc: Global,
    head: &[NumberedLine<'_>],
    row: &Row<'_>,
) -> Result<(), Stop> {
    let mut text = String::new(alloc);
    play_row(rt, alloc, head, row, &mut text)?;
    print(rt, text.as_str())?;
    Ok(())
}

// Plays the rows of a text, and prints each as it is played.
fn play_text<R: Files + Print>(rt: &R, alloc: Global, text: &str) -> Result<(), Stop> {
    let rows = read_rows(alloc, text)?;
    for row in &rows.rows {
        print_row(rt, alloc, &rows.head, row)?;
    }
    Ok(())
}

// Plays the rows of a file.
fn play_file<R: Files + Print>(rt: &R, alloc: Global, name: &str) -> Result<(), Stop> {
    let bytes = data_file(rt, alloc, name)?;
    let Ok(text) = str::from_utf8(&bytes) else {
        return Err(Stop::from(Fault::Form));
    };
    print_title(rt, name)?;
    play_text(rt, alloc, text)
}

// Prints the name of a file of rows.
fn print_title(rt: &impl Print, name: &str) -> Result<(), Fault> {
    match println!(rt; "== {name}") {
        Ok(()) => Ok(()),
        Err(_) => Err(Fault::Print),
    }
}

// Prints a text.
fn print(rt: &impl Print, text: &str) -> Result<(), Fault> {
    match print!(rt; "{text}") {
        Ok(()) => Ok(()),
        Err(_) => Err(Fault::Print),
    }
}

fn main(rt: HostRuntime) -> ExitCode {
    let Ok(names) = words(&rt) else {
        return ExitCode::from(1);
    };
    for name in &names {
        if let Err(stop) = play_file(&rt, rt.alloc(), name) {
            let _ = println!(&rt; "{name} line {}: {}", stop.line, stop.fault);
            return ExitCode::from(1);
        }
    }
    ExitCode::from(0)
}
