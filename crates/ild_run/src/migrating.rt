//! A call that gives a value a root that names its schema.
ghost use Rattle.std.specs.Prelude.{◌≡◌, ◌<◌, length};
ghost use Rattle.ild_run.specs.inside.Moved.{MovedAs, moved_fault};

use crate::fault::Fault;
use crate::status::Status;
use crate::top::{reply, tell};
use ild_data::{BlockId, Sha256Keys};
use ild_edges::{Sink, Store};
use ild_run_create::Refusal;
use ild_run_named::{MigrateFault, migrate};
use ild_schema::{Accepted, TypeNo};
use ild_script::Reply;
use std::alloc::Global;

/// The fault of a value that is not given such a root.
fn moved_fault(fault: MigrateFault) -> Fault
    ensures { result ≡ moved_fault fault }
{
    match fault {
        MigrateFault::Depth => Fault::Value(Refusal::Depth),
        MigrateFault::Size => Fault::Value(Refusal::Size),
        MigrateFault::Block { id, why } => Fault::Root(id, why),
        MigrateFault::Store => Fault::Store,
        MigrateFault::Clash(id) => Fault::Clash(id),
        MigrateFault::Memory => Fault::Memory,
    }
}

/// Gives the value of a type that stands under a bare root one that names the type so and the schema by this text, writes the line of the
/// new root, and answers how it ended.
pub(crate) fn move_root<K: Store, W: Sink>(
    alloc: Global,
    schema: &Accepted,
    ty: TypeNo,
    root: &BlockId,
    name: &str,
    source: &str,
    store: &mut K,
    out: &mut W,
) -> Status
    requires within { ty.0 < length schema.now }
    ensures { MovedAs schema.now ty root.now.0 name.now source.now (K.moment store.old) (W.output out.old) result (K.moment store.new) (W.output out.new) }
{
    schema.recall();
    match migrate(alloc, schema, ty, name, source, root, &Sha256Keys, store) {
        Ok(id) => reply(alloc, &Reply::Root(id), Status::Done, out),
        Err(fault) => tell(alloc, moved_fault(fault), out),
    }
}
