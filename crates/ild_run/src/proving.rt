//! A call that proves what stands at a path.
ghost use Rattle.std.specs.Prelude.{◌<◌, length};
ghost use Rattle.ild_run.specs.inside.Sought.{SoughtAs};

use crate::fault::Fault;
use crate::status::Status;
use crate::top::{reply, tell};
use ild_data::{BlockId, Path, Sha256Keys};
use ild_edges::{Sink, Store};
use ild_run_prove::{ProveFault, prove};
use ild_schema::{Accepted, TypeNo};
use ild_script::Reply;
use std::alloc::Global;

/// Proves what stands at a path in the value of a type under a root, writes the JSON of the proof, and answers how it ended.
pub(crate) fn seek<K: Store, W: Sink>(
    alloc: Global,
    schema: &Accepted,
    ty: TypeNo,
    root: &BlockId,
    path: &Path,
    store: &mut K,
    out: &mut W,
) -> Status
    requires within { ty.0 < length schema.now }
    ensures { SoughtAs schema.now ty root.now.0 path.now (K.moment store.old) (W.output out.old) result (K.moment store.new) (W.output out.new) }
{
    schema.recall();
    match prove(alloc, schema, ty, root, path, &Sha256Keys, store) {
        Ok(json) => reply(alloc, &Reply::Ok(json), Status::Done, out),
        Err(ProveFault::Block { id, why }) => tell(alloc, Fault::Root(id, why), out),
        Err(ProveFault::Store) => tell(alloc, Fault::Store, out),
        Err(ProveFault::Memory) => tell(alloc, Fault::Memory, out),
    }
}
