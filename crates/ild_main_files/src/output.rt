//! Standard output as a sink.
ghost use Rattle.std.specs.Prelude.{◌≡◌, None};

use crate::cause::cause;
use ild_edges::{EdgeErr, Sink};
use std::io;
use std::io::Write;

/// Standard output. It tells nothing of what was written.
#[derive(Drop)]
pub struct StdSink<'r, P: Print> {
    rt: &'r P,
    faults: u64,
}

impl<'r, P: Print> StdSink<'r, P> {
    /// The standard output of a runtime.
    pub fn new(rt: &'r P) -> StdSink<'r, P>
        ensures { result.faults ≡ 0 }
    {
        StdSink { rt, faults: 0 }
    }
}

impl<'r, P: Print> Sink for StdSink<'r, P> {
    ghost output = { λ s. record { written = None; faults = s.faults } };

    /// Writes a piece through: nothing waits in a buffer, so a failure is seen at its own call.
    fn write(&mut self, piece: &[u8]) -> Result<(), EdgeErr> {
        let mut out = io::writer(self.rt);
        match out.write_all(piece) {
            Ok(()) => Ok(()),
            Err(error) => {
                let cause = cause(error);
                if cause == EdgeErr::Failed {
                    self.faults = self.faults.saturating_add(1);
                }
                Err(cause)
            }
        }
    }
}
