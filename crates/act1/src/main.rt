//! The program act1: real files, standard output, helpers that are programs, and the words of the command line for `run`.
#![tactic(auto)]

mod child_helpers;
mod real_files;
mod stdout_sink;
#[cfg(test)]
mod tests;
mod whole_file;

use act1_base::HashSeed;
use act1_top::run;
use child_helpers::ChildHelpers;
use real_files::RealFiles;
use std::alloc::{AllocError, Global};
use std::process::ExitCode;
use std::random::RandomSource;
use std::rt::{Env, Files, Processes};
use std::{env, io};
use stdout_sink::StdoutSink;

// The status where there is no memory for the words.
const MEMORY: u8 = 15;

// The words after the program's name. Where they can't be had, as where one of them isn't UTF-8,
// there are none, which is no command.
fn words<R: Env + AllocGlobal>(rt: &R) -> Result<Vec<String>, AllocError> {
    match env::args(rt) {
        Ok(args) => args.skip(1).collect(rt.alloc()),
        Err(e) => {
            if e.kind() == io::ErrorKind::OutOfMemory {
                Err(AllocError)
            } else {
                Ok(Vec::new(rt.alloc()))
            }
        }
    }
}

// What the tables of names hash by in this run. Where the system gives no random bytes, whoever writes a
// text may choose names that make the run slow, and nothing worse.
fn hash_seed<R: RandomSource>(rt: &R) -> HashSeed {
    let mut bytes = [0; 16];
    let _ = rt.fill_bytes(&mut bytes);
    HashSeed::new(bytes)
}

// Runs the words of the command line, and answers the status.
fn status<R: Env + Files + Print + Processes + RandomSource + AllocGlobal>(rt: &R) -> u8 {
    let alloc: Global = rt.alloc();
    let mut files = RealFiles::new(rt, alloc);
    let mut out = StdoutSink::new(rt);
    let mut helpers = ChildHelpers::new(rt, alloc);
    match words(rt) {
        Ok(words) => run(
            alloc,
            hash_seed(rt),
            &words,
            &mut files,
            &mut out,
            &mut helpers,
        ),
        Err(_) => MEMORY,
    }
}

fn main(rt: HostRuntime) -> ExitCode {
    ExitCode::from(status(&rt))
}
