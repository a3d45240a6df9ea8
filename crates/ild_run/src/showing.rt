//! A call that shows a value.
ghost use Rattle.std.specs.Prelude.{◌≤◌, ◌<◌, length};
ghost use Rattle.ild_run.specs.Shown.{ShownAs, ShownTold};

use crate::fault::Fault;
use crate::status::Status;
use crate::top::{reply, tell};
use ild_data::{BlockId, Sha256Keys, Txt};
use ild_edges::{Sink, Store};
use ild_run_show::{ShowFault, show};
use ild_schema::{Accepted, TypeNo};
use ild_script::{No, Reply};
use std::alloc::Global;

/// Writes the JSON of a value that was to be shown, or the line of a fault, and answers how the call ended.
pub(crate) fn tell_shown<W: Sink>(
    alloc: Global,
    shown: Result<Txt, ShowFault>,
    out: &mut W,
) -> Status
    ensures told { ShownTold shown (W.output out.old) result (W.output out.new) }
    ensures faults { (W.output out.old).faults ≤ (W.output out.new).faults }
{
    match shown {
        Ok(json) => reply(alloc, &Reply::Ok(json), Status::Done, out),
        Err(ShowFault::Reserved) => reply(alloc, &Reply::No(No::Reserved), Status::Refused, out),
        Err(ShowFault::Block { id, why }) => tell(alloc, Fault::Root(id, why), out),
        Err(ShowFault::Store) => tell(alloc, Fault::Store, out),
        Err(ShowFault::Memory) => tell(alloc, Fault::Memory, out),
    }
}

/// Opens the value of a type that stands under a root, writes its JSON, and answers how it ended.
pub(crate) fn present<K: Store, W: Sink>(
    alloc: Global,
    schema: &Accepted,
    ty: TypeNo,
    root: &BlockId,
    store: &mut K,
    out: &mut W,
) -> Status
    requires within { ty.0 < length schema.now }
    ensures { ShownAs schema.now ty root.now.0 (K.moment store.old) (W.output out.old) result (K.moment store.new) (W.output out.new) }
{
    schema.recall();
    let shown = show(alloc, schema, ty, root, &Sha256Keys, store);
    tell_shown(alloc, shown, out)
}
