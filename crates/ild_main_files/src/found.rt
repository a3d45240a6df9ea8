//! What the system tells of what stands under the name of a block.
ghost use Rattle.std.specs.Prelude.{◌≡◌, ◌⊎◌, ◌↔◌, IfOk, IsOkAnd, IsErrAnd, Ok, Err, Some, None};
ghost use Rattle.std.specs.Fs.{file_type, metadata_len, IsFile};
ghost use Rattle.std.specs.IoError.{error_kind};
ghost use Rattle.ild_edges.specs.declared.error.EdgeErr.TheVariants.{Memory};

use crate::cause::cause;
use ild_edges::EdgeErr;
use std::fs::Metadata;
use std::io;
use std::io::ErrorKind;

/// The length of a plain file, or of that to which a link leads. A folder, a named pipe or a device has none here, nor has what isn't there.
pub(crate) fn plain_len(told: io::Result<Metadata>) -> Result<Option<u64>, EdgeErr>
    ensures plain { IfOk told (λ m. IsFile (file_type m) → result ≡ Ok (Some (metadata_len m))) }
    ensures other { (result ≡ Ok None) ↔ (IsOkAnd told (λ m. IsFile (file_type m) → ⊥) ⊎ IsErrAnd told (λ e. error_kind e ≡ ErrorKind.NotFound)) }
    ensures memory { (result ≡ Err Memory) ↔ IsErrAnd told (λ e. error_kind e ≡ ErrorKind.OutOfMemory) }
{
    match told {
        Ok(metadata) => {
            if metadata.is_file() {
                Ok(Some(metadata.len()))
            } else {
                Ok(None)
            }
        }
        Err(error) => match error.kind() {
            ErrorKind::NotFound => Ok(None),
            _ => Err(cause(error)),
        },
    }
}
