ghost use Rattle.std.specs.Prelude.{◌≡◌, None};

use act1_outside::{Sink, SinkFault};
use std::io;
use std::io::Write;

/// Standard output. It tells nothing of what was printed, and counts the puts that failed and
/// those that found no memory.
#[derive(Drop)]
pub struct StdoutSink<'a, R> {
    rt: &'a R,
    faults: u64,
    unprinted: u64,
}

impl<'a, R> StdoutSink<'a, R> {
    /// The standard output of this runtime. No fault is counted yet.
    pub fn new(rt: &'a R) -> StdoutSink<'a, R>
        ensures faults { result.faults ≡ 0 }
        ensures memory { result.unprinted ≡ 0 }
    {
        StdoutSink {
            rt,
            faults: 0,
            unprinted: 0,
        }
    }
}

impl<R: Print> Sink for StdoutSink<'_, R> {
    ghost seen = { λ s. record { printed = None; faults = s.faults; unprinted = s.unprinted } };

    fn put(&mut self, bytes: &[u8]) -> Result<(), SinkFault> {
        match io::writer(self.rt).write_all(bytes) {
            Ok(()) => Ok(()),
            Err(e) => {
                if e.kind() == io::ErrorKind::OutOfMemory {
                    self.unprinted = self.unprinted.saturating_add(1);
                    return Err(SinkFault::Memory);
                }
                self.faults = self.faults.saturating_add(1);
                Err(SinkFault::Failed)
            }
        }
    }
}
