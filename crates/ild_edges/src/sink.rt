//! Where the output goes.
ghost use Rattle.ild_edges.specs.Sink.{Output, Writes};

use crate::EdgeErr;

/// Where the output goes.
pub trait Sink {
    /// What was written and counted at this moment.
    ghost output: { Self → Output };

    /// Appends a piece. A call that fails may have appended a front of it.
    fn write(&mut self, piece: &[u8]) -> Result<(), EdgeErr>
        ensures { Writes (output self.old) piece.now result (output self.new) };
}
