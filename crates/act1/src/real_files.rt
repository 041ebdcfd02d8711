ghost use Rattle.std.specs.Prelude.{◌≡◌, ◌≢◌, ℕ, List};
ghost use Rattle.act1_outside.specs.Failures.{failures_of};
ghost use Rattle.act1_outside.specs.Faults.{Rose, OnlyAt, count_after, is_memory};

use crate::whole_file::write_whole;
use act1_outside::{Failures, FileFault, Files};
use std::alloc::Global;
use std::io::Read;
use std::{fs, io, rt};

/// The files of the system. They tell nothing of their content; the names of the reads and writes
/// that failed are kept, and are what is counted. Where such a list can't grow the answer is
/// `Memory`, and writes that end so are counted too.
#[derive(Drop)]
pub struct RealFiles<'a, R> {
    rt: &'a R,
    alloc: Global,
    failed_reads: Failures,
    failed_writes: Failures,
    unwritten: u64,
}

impl<'a, R> RealFiles<'a, R> {
    /// The files of this runtime. No fault is counted yet.
    pub fn new(rt: &'a R, alloc: Global) -> RealFiles<'a, R>
        ensures reads { (name : List ℕ) → failures_of result.failed_reads name ≡ 0 }
        ensures writes { (name : List ℕ) → failures_of result.failed_writes name ≡ 0 }
        ensures memory { result.unwritten ≡ 0 }
    {
        RealFiles {
            rt,
            alloc,
            failed_reads: Failures::new(alloc),
            failed_writes: Failures::new(alloc),
            unwritten: 0,
        }
    }
}

// At most `most` bytes of a file, and one more where it has more.
fn read_bytes<R: rt::Files>(rt: &R, alloc: Global, name: &str, most: u64) -> io::Result<Vec<u8>> {
    let file = fs::open(rt, name)?;
    let mut bytes = Vec::new(alloc);
    file.take(most.saturating_add(1)).read_to_end(&mut bytes)?;
    Ok(bytes)
}

// What an error of the system is to the caller, once the name is noted.
fn fault(failures: &mut Failures, name: &str, error: &io::Error) -> FileFault
    ensures rose { result ≡ FileFault.Failed → Rose (failures_of failures.old name.now) (failures_of failures.new name.now) }
    ensures at { OnlyAt name.now (failures_of failures.old) (failures_of failures.new) }
    ensures never_long { result ≢ FileFault.TooLong }
{
    if error.kind() == io::ErrorKind::OutOfMemory {
        return FileFault::Memory;
    }
    match failures.note(name) {
        Ok(()) => FileFault::Failed,
        Err(_) => FileFault::Memory,
    }
}

// The count of writes that found no memory, after one that ended with this fault.
fn unwritten_after(count: u64, fault: FileFault) -> u64
    ensures { result ≡ count_after (is_memory fault) count }
{
    match fault {
        FileFault::Memory => count.saturating_add(1),
        _ => count,
    }
}

impl<R: rt::Files> Files for RealFiles<'_, R> {
    ghost use Rattle.std.specs.Prelude.{false, None};

    ghost seen = { λ f. record {
      tells = false;
      held = λ name. None;
      read_faults = failures_of f.failed_reads;
      write_faults = failures_of f.failed_writes;
      unwritten = f.unwritten;
    } };

    fn read(&mut self, alloc: Global, name: &str, most: u64) -> Result<Vec<u8>, FileFault> {
        match read_bytes(self.rt, alloc, name, most) {
            Ok(bytes) => {
                if bytes.len() as u64 > most {
                    return Err(FileFault::TooLong);
                }
                Ok(bytes)
            }
            Err(e) => Err(fault(&mut self.failed_reads, name, &e)),
        }
    }

    fn write(&mut self, name: &str, bytes: &[u8]) -> Result<(), FileFault> {
        match write_whole(self.rt, self.alloc, name, bytes) {
            Ok(()) => Ok(()),
            Err(e) => {
                let fault = fault(&mut self.failed_writes, name, &e);
                self.unwritten = unwritten_after(self.unwritten, fault);
                Err(fault)
            }
        }
    }
}
