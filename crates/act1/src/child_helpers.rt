ghost use Rattle.std.specs.Prelude.{◌≡◌, ◌≤◌};
ghost use Rattle.act1_outside.specs.Faults.{Rose};

use act1_outside::{HelperFault, Helpers, Tickets};
use std::alloc::Global;
use std::collections::BTreeMap;
use std::io::Read;
use std::process::{Child, Command, Processes, Stdio};
use std::{fs, io, rt};

// The most bytes of an answer: 256 MiB.
const MOST_BYTES: u64 = 268_435_456;

/// Helpers that are programs of the system. A start writes the job to `act1-job-N.txt` in the working folder, N the
/// ticket, and starts `PROGRAM search act1-job-N.txt act1-answer-N.txt`; its finish waits for the program and reads the
/// answer file, of at most 256 MiB. What the program prints is dropped, and both files are removed once the answer was
/// read. It tells no story; the starts and finishes that failed are counted.
#[derive(Drop)]
pub struct ChildHelpers<'a, R: Processes> {
    rt: &'a R,
    alloc: Global,
    tickets: Tickets,
    running: BTreeMap<u64, Child<R::Started>>,
    faults: u64,
}

impl<'a, R: Processes> ChildHelpers<'a, R> {
    /// Helpers of this runtime: none is started, no fault is counted, and the first ticket is 0. It takes no memory.
    pub fn new(rt: &'a R, alloc: Global) -> ChildHelpers<'a, R> {
        ChildHelpers {
            rt,
            alloc,
            tickets: Tickets::new(alloc),
            running: BTreeMap::new(alloc),
            faults: 0,
        }
    }
}

// The names of the files of a job and of its answer.
fn job_name(alloc: Global, ticket: u64) -> io::Result<String> {
    Ok(format!(in alloc; "act1-job-{ticket}.txt")?)
}

fn answer_name(alloc: Global, ticket: u64) -> io::Result<String> {
    Ok(format!(in alloc; "act1-answer-{ticket}.txt")?)
}

// Writes the job and starts the program on it.
fn start_child<R: Processes + rt::Files>(
    rt: &R,
    alloc: Global,
    program: &str,
    job: &[u8],
    ticket: u64,
) -> io::Result<Child<R::Started>> {
    let job_file = job_name(alloc, ticket)?;
    let answer_file = answer_name(alloc, ticket)?;
    // No older answer is taken for this one's.
    let _ = fs::remove_file(rt, answer_file.as_str());
    fs::write(rt, job_file.as_str(), job)?;
    let mut command = Command::new(alloc, program)?;
    command
        .arg("search")?
        .arg(job_file.as_str())?
        .arg(answer_file.as_str())?
        .stdin(Stdio::null())
        .stdout(Stdio::null())
        .stderr(Stdio::null());
    command.spawn(rt)
}

// Waits for the program and reads its answer. An answer that is too long is none.
fn answer_of<R: Processes + rt::Files>(
    rt: &R,
    alloc: Global,
    mut child: Child<R::Started>,
    ticket: u64,
) -> io::Result<Vec<u8>> {
    child.wait()?;
    let name = answer_name(alloc, ticket)?;
    let file = fs::open(rt, name.as_str())?;
    let mut bytes = Vec::new(alloc);
    file.take(MOST_BYTES + 1).read_to_end(&mut bytes)?;
    Ok(bytes)
}

// Removes the files of a job, where they are there.
fn remove_files<R: rt::Files>(rt: &R, alloc: Global, ticket: u64) {
    if let Ok(name) = job_name(alloc, ticket) {
        let _ = fs::remove_file(rt, name.as_str());
    }
    if let Ok(name) = answer_name(alloc, ticket) {
        let _ = fs::remove_file(rt, name.as_str());
    }
}

// The fault of an error of the system, which is counted but for want of memory.
fn fault(faults: &mut u64, error: &io::Error) -> HelperFault
    ensures failed { result ≡ HelperFault.Failed → Rose faults.old faults.new }
    ensures later { faults.old ≤ faults.new }
{
    if error.kind() == io::ErrorKind::OutOfMemory {
        return HelperFault::Memory;
    }
    *faults = faults.saturating_add(1);
    HelperFault::Failed
}

impl<R: Processes + rt::Files> ChildHelpers<'_, R> {
    // The answer of a helper that was started.
    fn finish_running(&mut self, alloc: Global, ticket: u64) -> io::Result<Vec<u8>>
        ensures tickets { self.new.tickets ≡ self.old.tickets }
        ensures faults { self.new.faults ≡ self.old.faults }
    {
        let child = match self.running.remove(&ticket) {
            Some(child) => child,
            None => return Err(io::Error::from(io::ErrorKind::NotFound)),
        };
        let answer = answer_of(self.rt, alloc, child, ticket);
        remove_files(self.rt, alloc, ticket);
        answer
    }
}

impl<R: Processes + rt::Files> Helpers for ChildHelpers<'_, R> {
    ghost use Rattle.std.specs.Prelude.{None};

    ghost seen = { λ h. record {
      open_tickets = h.tickets.open_tickets.items;
      next = h.tickets.next;
      faults = h.faults;
      story = None;
    } };

    fn start(&mut self, program: &str, job: &[u8]) -> Result<u64, HelperFault> {
        let ticket = self.tickets.next;
        if ticket == u64::MAX {
            self.faults = self.faults.saturating_add(1);
            return Err(HelperFault::Failed);
        }
        self.tickets.make_room()?;
        match start_child(self.rt, self.alloc, program, job, ticket) {
            Ok(child) => {
                self.running.insert(ticket, child)?;
                self.tickets.open_next();
                Ok(ticket)
            }
            Err(e) => {
                remove_files(self.rt, self.alloc, ticket);
                Err(fault(&mut self.faults, &e))
            }
        }
    }

    fn finish(&mut self, alloc: Global, ticket: u64) -> Result<Vec<u8>, HelperFault> {
        self.tickets.close(ticket);
        match self.finish_running(alloc, ticket) {
            Ok(bytes) => {
                if bytes.len() as u64 > MOST_BYTES {
                    self.faults = self.faults.saturating_add(1);
                    return Err(HelperFault::Failed);
                }
                Ok(bytes)
            }
            Err(e) => Err(fault(&mut self.faults, &e)),
        }
    }

    ghost next_above = { λ h. h.tickets.above };
}
