//! Files as inputs.
ghost use Rattle.std.specs.Prelude.{◌≡◌, None};

use crate::cause::cause;
use crate::load::load;
use ild_data::Octets;
use ild_edges::{EdgeErr, Inputs, LONGEST_INPUT as LONGEST, Taken};
use std::io::ErrorKind;
use std::rt::Files;

/// The longest input has its room at once, and no page of it is touched before a byte is read into it. The allocators of today's
/// systems ask the system for long pieces one by one, and hand their pages back when they are dropped, until they have seen one as
/// long as this come and go: so what is touched for a value is used again behind the first input.
const ROOM: usize = LONGEST + 1;

/// Files by their names. They tell nothing of what there is.
#[derive(Drop)]
pub struct FileInputs<'r, R: Files + AllocGlobal> {
    rt: &'r R,
    lacks: u64,
    faults: u64,
}

impl<'r, R: Files + AllocGlobal> FileInputs<'r, R> {
    /// The files that a runtime reaches.
    pub fn new(rt: &'r R) -> FileInputs<'r, R>
        ensures lacks { result.lacks ≡ 0 }
        ensures faults { result.faults ≡ 0 }
    {
        FileInputs {
            rt,
            lacks: 0,
            faults: 0,
        }
    }
}

impl<'r, R: Files + AllocGlobal> Inputs for FileInputs<'r, R> {
    ghost supply = { λ f. record { files = None; lacks = f.lacks; faults = f.faults } };

    fn take(&mut self, name: &str) -> Result<Taken, EdgeErr> {
        match load(self.rt, name, ROOM as u64, ROOM) {
            Ok(bytes) => {
                if bytes.len() <= LONGEST {
                    Ok(Taken::Bytes(Octets::from_vec(bytes)))
                } else {
                    self.lacks = self.lacks.saturating_add(1);
                    Ok(Taken::Long)
                }
            }
            Err(error) => {
                if matches!(error.kind(), ErrorKind::NotFound | ErrorKind::NotADirectory) {
                    self.lacks = self.lacks.saturating_add(1);
                    return Ok(Taken::Absent);
                }
                let cause = cause(error);
                if cause == EdgeErr::Failed {
                    self.faults = self.faults.saturating_add(1);
                }
                Err(cause)
            }
        }
    }
}
