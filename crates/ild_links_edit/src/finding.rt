//! The root block of a tree.
ghost use Rattle.std.specs.Prelude.{◌<◌, length};
ghost use Rattle.ild_links_edit.specs.inside.Finds.{FindsRoot};

use ild_data::BlockId;
use ild_edges::{EdgeErr, Store};
use ild_schema::{Accepted, TypeNo};
use ild_script::No;
use ild_view_doc::{Doc, DocErr};
use std::alloc::Global;

/// The root block of a type under an id, by one get. What stands beneath the block isn't read.
pub(crate) fn find_root<'s, K: Store>(
    alloc: Global,
    acc: &'s Accepted,
    ty: TypeNo,
    id: &BlockId,
    store: &mut K,
) -> Result<Doc<'s>, No>
    requires { ty.0 < length acc.now }
    ensures { FindsRoot acc.now ty id.now.0 (K.moment store.old) result (K.moment store.new) }
{
    acc.recall();
    let block = match store.get(id) {
        Ok(Some(block)) => block,
        Ok(None) => return Err(No::Block),
        Err(EdgeErr::Failed) => return Err(No::Store),
        Err(EdgeErr::Memory) => return Err(No::Memory),
    };
    match Doc::of(alloc, acc, ty, block) {
        Ok(doc) => Ok(doc),
        Err(DocErr::Cbor(_)) => Err(No::Block),
        Err(DocErr::Shape(_)) => Err(No::Block),
        Err(DocErr::Memory) => Err(No::Memory),
    }
}
