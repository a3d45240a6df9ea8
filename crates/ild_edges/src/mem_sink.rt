//! A sink in memory, with writes that fail by number.
ghost use Rattle.std.specs.Prelude.{◌≡◌, ◌≢◌, ◌↔◌, [], Contains, IfOk};
ghost use Rattle.ild_edges.specs.Count.{bumped};
ghost use Rattle.ild_edges.specs.Sink.{Writes};

use crate::due::is_due;
use crate::{EdgeErr, Sink};
use std::alloc::{AllocError, Global};

/// A sink in memory, which tells its bytes. The writes whose numbers, from 1 on, stand in its list fail, and no other.
#[derive(Drop)]
pub struct MemSink {
    bytes: Vec<u8>,
    fails: Vec<u64>,
    writes: u64,
    faults: u64,
}

impl MemSink {
    ghost use Rattle.ild_edges.specs.MemSink.{sink_state, new_sink};

    /// A sink with nothing written.
    pub fn new(alloc: Global, fails: &[u64]) -> Result<MemSink, AllocError>
        ensures { IfOk result (λ sink. sink_state sink ≡ new_sink fails.now) }
    {
        Ok(MemSink {
            bytes: Vec::new(alloc),
            fails: fails.to_vec(alloc)?,
            writes: 0,
            faults: 0,
        })
    }

    /// The bytes that were written.
    pub fn bytes(&self) -> &[u8]
        ensures { result.now ≡ (sink_state self.now).bytes }
    {
        &self.bytes
    }
}

impl Sink for MemSink {
    ghost use Rattle.ild_edges.specs.MemSink.{sink_state, output_of, after_write};

    ghost output = { λ m. output_of (sink_state m) };

    fn write(&mut self, piece: &[u8]) -> Result<(), EdgeErr>
        ensures writes { Writes (output_of (sink_state self.old)) piece.now result (output_of (sink_state self.new)) }
        ensures left { sink_state self.new ≡ after_write (sink_state self.old) piece.now result }
        ensures due { (result ≡ Err EdgeErr.Failed) ↔ Contains (sink_state self.old).fails (bumped (sink_state self.old).writes) }
        ensures never { (sink_state self.old).fails ≡ [] → result ≢ Err EdgeErr.Failed }
    {
        self.writes = self.writes.saturating_add(1);
        if is_due(&self.fails, self.writes) {
            self.faults = self.faults.saturating_add(1);
            return Err(EdgeErr::Failed);
        }
        self.bytes.extend_from_slice(piece)?;
        Ok(())
    }
}
