//! A call that weighs a proof.
ghost use Rattle.std.specs.Prelude.{◌<◌, length};
ghost use Rattle.ild_run.specs.inside.Weighed.{WeighedAs};

use crate::fault::Fault;
use crate::status::Status;
use crate::top::{cut_status, tell};
use ild_data::{BlockId, Path, Sha256Keys};
use ild_edges::Sink;
use ild_run_verify::{VerifyFault, verify};
use ild_schema::{Accepted, TypeNo};
use std::alloc::Global;

/// Tells what a proof says of a path in the value of a type under a root, and answers how it ended.
pub(crate) fn weigh<W: Sink>(
    alloc: Global,
    schema: &Accepted,
    ty: TypeNo,
    root: &BlockId,
    path: &Path,
    proof: &[u8],
    out: &mut W,
) -> Status
    requires within { ty.0 < length schema.now }
    ensures { WeighedAs schema.now ty root.now.0 path.now proof.now (W.output out.old) result (W.output out.new) }
{
    schema.recall();
    match verify(alloc, schema, ty, root, path, proof, &Sha256Keys, out) {
        Ok(false) => Status::Done,
        Ok(true) => Status::Refused,
        Err(VerifyFault::Proof) => tell(alloc, Fault::Proof, out),
        Err(VerifyFault::Memory) => tell(alloc, Fault::Memory, out),
        Err(VerifyFault::Cut(cut)) => cut_status(cut),
    }
}
