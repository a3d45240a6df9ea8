//! A document is opened.
ghost use Rattle.std.specs.Prelude.{◌≡◌, ◌<◌, length};
ghost use Rattle.ild_run_open.specs.Starts.{Starts};
ghost use Rattle.ild_run_open.specs.inside.Steps.{open_fault};
ghost use Rattle.ild_run_open.specs.declared.start.Start.TheVariants as start;

use crate::empty::put_empty;
use crate::{Start, StartFault};
use ild_data::{BlockId, KeyHash};
use ild_edges::Store;
use ild_open::{OpenFault, open_root};
use ild_schema::{Accepted, TypeNo};
use ild_view_doc::{Doc, DocErr};
use std::alloc::Global;

fn open_fault(fault: OpenFault) -> StartFault
    ensures { result ≡ open_fault fault }
{
    match fault {
        OpenFault::Block { id, why } => StartFault::Block { id, why },
        OpenFault::Store => StartFault::Store,
        OpenFault::Memory => StartFault::Memory,
    }
}

/// Opens the document of the value under a root.
fn open_held<'s, K: Store, H: KeyHash>(
    alloc: Global,
    acc: &'s Accepted,
    ty: TypeNo,
    root: BlockId,
    keys: &H,
    store: &mut K,
) -> Result<Doc<'s>, StartFault>
    requires { ty.0 < length acc.now }
    ensures { Starts H.hash_of acc.now ty (start.Root root) (K.moment store.old) result (K.moment store.new) }
{
    match open_root(alloc, acc, ty, &root, keys, store) {
        Ok(doc) => Ok(doc),
        Err(fault) => Err(open_fault(fault)),
    }
}

/// Puts the block of the empty value, and opens its document: what was built of the type is a root block of it.
fn open_empty<'s, K: Store, H: KeyHash>(
    alloc: Global,
    acc: &'s Accepted,
    ty: TypeNo,
    keys: &H,
    store: &mut K,
) -> Result<Doc<'s>, StartFault>
    requires { ty.0 < length acc.now }
    ensures { Starts H.hash_of acc.now ty start.Empty (K.moment store.old) result (K.moment store.new) }
{
    acc.recall();
    let block = match put_empty(alloc, acc, ty, keys, store) {
        Ok(block) => block,
        Err(fault) => return Err(fault),
    };
    match Doc::of(alloc, acc, ty, block) {
        Ok(doc) => Ok(doc),
        Err(DocErr::Cbor(_)) => unreachable!(),
        Err(DocErr::Shape(_)) => unreachable!(),
        Err(DocErr::Memory) => Err(StartFault::Memory),
    }
}

/// Opens the document from which a script starts. Of a root it is that of the value which stands under the id, as `open_root` has it.
/// Else it is that of the empty map or list, whose one block is put; `Mismatch` comes exactly where the type, copies followed, is
/// neither.
pub fn open<'s, K: Store, H: KeyHash>(
    alloc: Global,
    acc: &'s Accepted,
    ty: TypeNo,
    start: Start,
    keys: &H,
    store: &mut K,
) -> Result<Doc<'s>, StartFault>
    requires { ty.0 < length acc.now }
    ensures { Starts H.hash_of acc.now ty start (K.moment store.old) result (K.moment store.new) }
{
    match start {
        Start::Root(root) => open_held(alloc, acc, ty, root, keys, store),
        Start::Empty => open_empty(alloc, acc, ty, keys, store),
    }
}
