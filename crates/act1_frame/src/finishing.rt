ghost use Rattle.std.specs.Prelude.{◌≡◌, List, ℕ, IfOk};
ghost use Rattle.act1_frame.specs.Leaving.{Says, Leaves, LeavesFile, memory_text, write_fault_text};

use crate::ending::Ending;
use act1_base::{Memory, write_named};
use act1_outside::{FileFault, Files, Sink, SinkFault};
use std::alloc::Global;

const WRITE_FAULT: u8 = 3;

const MEMORY: u8 = 15;

// Prints a text, and answers the status.
fn say<S: Sink>(out: &mut S, text: &[u8], status: u8) -> u8
    ensures { Says text.now status (S.seen out.old) result (S.seen out.new) }
{
    match out.put(text) {
        Ok(()) => status,
        Err(SinkFault::Failed) => WRITE_FAULT,
        Err(SinkFault::Memory) => MEMORY,
    }
}

/// Says that there was no memory.
pub fn say_memory<S: Sink>(out: &mut S) -> u8
    ensures { Says memory_text 15 (S.seen out.old) result (S.seen out.new) }
{
    say(out, b"memory\n", MEMORY)
}

// The line of a write that failed.
fn write_fault_text(alloc: Global, name: &str) -> Result<Vec<u8>, Memory>
    ensures { IfOk result (λ text. text.items ≡ write_fault_text name.now) }
{
    let mut text = Vec::new(alloc);
    write_named(&mut text, b"write fault", name.as_bytes())?;
    Ok(text)
}

// Writes a file and prints a text, or what came of the write.
fn write_and_say<F: Files, S: Sink>(
    files: &mut F,
    out: &mut S,
    name: &str,
    bytes: &[u8],
    fault: &[u8],
    text: &[u8],
    status: u8,
) -> u8
    requires { fault.now ≡ write_fault_text name.now }
    ensures ends { LeavesFile name.now bytes.now text.now status (F.seen files.old) (S.seen out.old) result (F.seen files.new) (S.seen out.new) }
    ensures reads { (n : List ℕ) → (F.seen files.new).read_faults n ≡ (F.seen files.old).read_faults n }
{
    match files.write(name, bytes) {
        Ok(()) => say(out, text, status),
        Err(FileFault::Failed) => say(out, fault, WRITE_FAULT),
        Err(FileFault::TooLong | FileFault::Memory) => say_memory(out),
    }
}

/// Writes the ending's file, if it has one, and prints its text, and answers the status. All that may
/// be printed is made before the file is written.
pub fn finish<F: Files, S: Sink>(alloc: Global, ending: &Ending, files: &mut F, out: &mut S) -> u8
    ensures ends { Leaves ending.now (F.seen files.old) (S.seen out.old) result (F.seen files.new) (S.seen out.new) }
    ensures reads { (n : List ℕ) → (F.seen files.new).read_faults n ≡ (F.seen files.old).read_faults n }
{
    let text = ending.text.as_slice();
    match &ending.file {
        Some(file) => {
            let name = file.name.as_str();
            match write_fault_text(alloc, name) {
                Ok(fault) => write_and_say(
                    files,
                    out,
                    name,
                    file.bytes.as_slice(),
                    &fault,
                    text,
                    ending.status,
                ),
                Err(Memory) => say_memory(out),
            }
        }
        None => say(out, text, ending.status),
    }
}
