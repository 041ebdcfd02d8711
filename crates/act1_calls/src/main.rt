//! Calls that no command reaches, made on files of data: the program prints what they answer.
//!
//! The words of the command line are the names of files of rows. In such a file each line is a row, whose
//! words are parted by one blank; a line that is empty or begins with `#` says nothing. Each row is printed,
//! and under it what it gives. A BLIF file stands for the first cover of its netlist where a row speaks of a
//! cover, and a diagram's forks are counted with a limit of 10,000 where a row has none.
//!
//! | Row | What it gives |
//! |---|---|
//! | `number WORD N` | the number that a word spells, if it is at most N |
//! | `values BLIF` | the values of all signals at each input vector, of a netlist without latches and with at most six inputs |
//! | `table BLIF` | the values of a cover with at most six inputs, at all inputs, by its rows, by its diagram and by one module, if there is one |
//! | `limit BLIF N` | whether the diagram of a cover has at most N forks, or how many first rows have more |
//! | `same BLIF BLIF` | whether two covers have one diagram |
//! | `choice V BLIF BLIF BLIF` | whether the second cover where variable V is 0, and the first where it is 1, is the third |
//! | `fixed BLIF V B BLIF` | whether the first cover, with variable V fixed as B, is the second |
//! | `root BLIF` | the variable that the diagram of a cover asks first, and its two parts |
//! | `count V` | how many of all tables of V variables, at most four, one module can be |
//! | `scattered N` | how many of N tables of six variables one module can be: every other one is made of pins, the others have scattered bits |
//! | `diagrams BLIF N COUNT` | how many of so many diagrams of a cover, each with forks of its own, have at most N forks |
//! | `clean BLIF` | the latches, nodes and outputs of the cleaned netlist |
//! | `plain BLIF` | the same of the netlist as it stands |
//! | `shrunk BLIF` | how many latches and nodes a netlist has, and how many when it is cleaned |
//! | `job JOB` | the job as it is written, or the line that is refused |
//! | `segments JOB C T` | how many segments of track T connection C of the job's problem overlaps |
//! | `allowed JOB C T` | whether the connection may take the track |
//! | `clash JOB C D T` | whether two connections overlap a common segment of the track |
//! | `fits JOB T ..` | whether the tracks are an assignment |
//! | `log TEXT` | the log as it is written, or the line that is refused; in a text a word `/` ends a line |
//! | `answer TEXT` | the answer as it is written, or the line that is refused |
//! | `check JOB TEXT` | whether a log is accepted for the job's problem, or why it isn't |
//! | `checked JOB LOG` | the same of a log's file of at most 256 MiB |
//! | `copied LOG` | whether the log of such a file is written as it is read |
//! | `search JOB N` | how the search of a job's problem ends under the budget N: tracks and whether they fit; or the number of steps, up to twenty of them, and whether the log is accepted; or that it is spent |
//! | `watch JOB WORD ..` | what a watch of a job's problem knows at first, and after each choice `C@T` that is assumed and each `learn`: the number of choices, and `conflict` or the choices that are taken and, behind a bar, those that are refused |
//! | `plan TEXT` | the plan as it is written, or the line that is refused |
//! | `legal DEVICE TEXT` | whether a plan is legal for the device |
//! | `place DEVICE FUSES TARGET SEED` | where the modules of the array's circuit stand on another device, or what it has too few of |
//! | `gains DEVICE FUSES TARGET SEED COLUMN` | from there the contents of the first site and of the one in this column of its row change places: the sum of half perimeters then, and what the exchange back would gain |
//! | `anew DEVICE PLAN SEED` | the sum of half perimeters where the modules of a plan that is legal for the device are placed anew, and a mark of their spots in order: from 0 on, of each spot, 31 times the mark so far and 64 times the row and the column, modulo 1,000,003 |
//! | `written DEVICE FUSES` | the antifuse file as it is written |
//! | `filled B DEVICE FUSES VECTORS` | the outputs where each module without a start of 0 or 1 begins with B |
//! | `form DEVICE FUSES` | the latch pairs of the circuit, master and slave, and its other modules; or the first fault |
//! | `settled CLOCK DEVICE FUSES INPUTS BITS` | what a wave leaves of the bits of the modules, and whether they rest |
//! | `engine DEVICE FUSES BITS WAVE ..` | the same of wave after wave by one engine, each of a word that is the clock and then the inputs; and `differs` where firing all modules in each round has it otherwise |
#![tactic(auto)]

mod arrays;
mod channels;
mod circuits;
mod covers;
mod diagrams;
mod engines;
mod input;
mod jobs;
mod logs;
mod netlists;
mod nets;
mod places;
mod plans;
mod searches;
mod tables;
mod watches;

use input::{bytes_of, number_row};
use std::alloc::{AllocError, Global};
use std::fmt::Write;
use std::process::ExitCode;
use std::rt::{Env, Files};
use std::{env, str};

// The words after the program's name: none where they can't be had.
fn words<R: Env + AllocGlobal>(rt: &R) -> Result<Vec<String>, AllocError> {
    match env::args(rt) {
        Ok(args) => args.skip(1).collect(rt.alloc()),
        Err(_) => Ok(Vec::new(rt.alloc())),
    }
}

// Adds what a row gives: `None` where it is no row, its files aren't what it asks for, or there is no memory.
fn add_given<R: Files>(rt: &R, alloc: Global, words: &[&str], text: &mut String) -> Option<()> {
    let (kind, words) = words.split_first()?;
    match *kind {
        "number" => number_row(words, text),
        "values" => netlists::values_row(rt, alloc, words, text),
        "table" => covers::table_row(rt, alloc, words, text),
        "limit" => covers::limit_row(rt, alloc, words, text),
        "diagrams" => covers::count_row(rt, alloc, words, text),
        "same" => diagrams::same_row(rt, alloc, words, text),
        "choice" => diagrams::choice_row(rt, alloc, words, text),
        "fixed" => diagrams::fixed_row(rt, alloc, words, text),
        "root" => diagrams::root_row(rt, alloc, words, text),
        "count" => tables::count_row(words, text),
        "scattered" => tables::scattered_row(words, text),
        "clean" => nets::clean_row(rt, alloc, words, text),
        "plain" => nets::plain_row(rt, alloc, words, text),
        "shrunk" => nets::shrunk_row(rt, alloc, words, text),
        "job" => jobs::job_row(rt, alloc, words, text),
        "segments" => channels::segments_row(rt, alloc, words, text),
        "allowed" => channels::allowed_row(rt, alloc, words, text),
        "clash" => channels::clash_row(rt, alloc, words, text),
        "fits" => channels::fits_row(rt, alloc, words, text),
        "log" => logs::log_row(alloc, words, text),
        "answer" => logs::answer_row(alloc, words, text),
        "check" => logs::check_row(rt, alloc, words, text),
        "checked" => logs::checked_row(rt, alloc, words, text),
        "copied" => logs::copied_row(rt, alloc, words, text),
        "search" => searches::search_row(rt, alloc, words, text),
        "watch" => watches::watch_row(rt, alloc, words, text),
        "plan" => plans::plan_row(alloc, words, text),
        "legal" => plans::legal_row(rt, alloc, words, text),
        "place" => places::place_row(rt, alloc, words, text),
        "gains" => places::gains_row(rt, alloc, words, text),
        "anew" => places::anew_row(rt, alloc, words, text),
        "written" => arrays::written_row(rt, alloc, words, text),
        "filled" => arrays::filled_row(rt, alloc, words, text),
        "form" => circuits::form_row(rt, alloc, words, text),
        "settled" => circuits::settled_row(rt, alloc, words, text),
        "engine" => engines::engine_row(rt, alloc, words, text),
        _ => None,
    }
}

// Adds a row and what it gives.
fn add_row<R: Files>(rt: &R, alloc: Global, row: &str, text: &mut String) -> Option<()> {
    writeln!(text, "{row}").ok()?;
    let words: Vec<&str> = row.split(' ').collect(alloc).ok()?;
    add_given(rt, alloc, &words, text)
}

// Plays a row: prints it and what it gives.
fn play_row<R: Files + Print>(rt: &R, alloc: Global, row: &str) -> Option<()> {
    let mut text = String::new(alloc);
    add_row(rt, alloc, row, &mut text)?;
    print!(rt; "{text}").ok()
}

// Plays the rows of a text, up to the first that can't be played, which is printed as such.
fn play_rows<R: Files + Print>(rt: &R, alloc: Global, text: &str) -> Option<()> {
    for row in text.lines() {
        if !row.is_empty() && !row.starts_with('#') && play_row(rt, alloc, row).is_none() {
            let _ = println!(rt; "no row: {row}");
            return None;
        }
    }
    Some(())
}

// Plays the rows of a file.
fn play_file<R: Files + Print>(rt: &R, alloc: Global, name: &str) -> Option<()> {
    let bytes = bytes_of(rt, alloc, name)?;
    play_rows(rt, alloc, str::from_utf8(&bytes).ok()?)
}

fn main(rt: HostRuntime) -> ExitCode {
    let Ok(names) = words(&rt) else {
        return ExitCode::from(1);
    };
    for name in &names {
        if play_file(&rt, rt.alloc(), name).is_none() {
            return ExitCode::from(1);
        }
    }
    ExitCode::from(0)
}
