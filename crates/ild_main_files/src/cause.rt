//! What an error of the file system is to the engine.
ghost use Rattle.std.specs.Prelude.{◌≡◌, ◌↔◌};
ghost use Rattle.std.specs.IoError.{error_kind};

use ild_edges::EdgeErr;
use std::io::{Error, ErrorKind};

/// Want of memory, or a failure of the outside.
pub(crate) fn cause(error: Error) -> EdgeErr
    ensures { (result ≡ EdgeErr.Memory) ↔ (error_kind error ≡ ErrorKind.OutOfMemory) }
{
    match error.kind() {
        ErrorKind::OutOfMemory => EdgeErr::Memory,
        _ => EdgeErr::Failed,
    }
}
