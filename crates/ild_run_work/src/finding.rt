//! The block under a root.
ghost use Rattle.std.specs.Prelude.{◌≡◌, ◌<◌, length};
ghost use Rattle.ild_open.specs.inside.Found.{GetFinds, Judges};
ghost use Rattle.ild_run_work.specs.inside.Found.{found_refusal};

use ild_cbor::BlockWhy;
use ild_data::{BlockId, Octets};
use ild_edges::{EdgeErr, Store};
use ild_open::OpenFault;
use ild_schema::{Accepted, TypeNo};
use ild_script::No;
use ild_view_doc::{Doc, DocErr};
use std::alloc::Global;

/// The refusal of a line whose root isn't found.
pub(crate) fn found_refusal(fault: OpenFault) -> No
    ensures { result ≡ found_refusal fault }
{
    match fault {
        OpenFault::Block { .. } => No::Block,
        OpenFault::Store => No::Store,
        OpenFault::Memory => No::Memory,
    }
}

/// The root block that bytes under an id are, or why they are none.
fn judge<'s>(
    alloc: Global,
    acc: &'s Accepted,
    ty: TypeNo,
    id: &BlockId,
    block: Octets,
) -> Result<Doc<'s>, OpenFault>
    requires { ty.0 < length acc.now }
    ensures { Judges acc.now ty id.now.0 block result }
{
    match Doc::of(alloc, acc, ty, block) {
        Ok(doc) => Ok(doc),
        Err(DocErr::Cbor(fault)) => Err(OpenFault::Block {
            id: *id,
            why: BlockWhy::Cbor(fault),
        }),
        Err(DocErr::Shape(why)) => Err(OpenFault::Block {
            id: *id,
            why: BlockWhy::Shape(why),
        }),
        Err(DocErr::Memory) => Err(OpenFault::Memory),
    }
}

/// The document of the block under a root, by one get. What stands beneath the block isn't read.
pub(crate) fn find<'s, K: Store>(
    alloc: Global,
    acc: &'s Accepted,
    ty: TypeNo,
    id: &BlockId,
    store: &mut K,
) -> Result<Doc<'s>, OpenFault>
    requires { ty.0 < length acc.now }
    ensures { GetFinds acc.now ty id.now.0 (K.moment store.old) result (K.moment store.new) }
{
    match store.get(id) {
        Ok(Some(block)) => judge(alloc, acc, ty, id, block),
        Ok(None) => Err(OpenFault::Block {
            id: *id,
            why: BlockWhy::Missing,
        }),
        Err(EdgeErr::Failed) => Err(OpenFault::Store),
        Err(EdgeErr::Memory) => Err(OpenFault::Memory),
    }
}
