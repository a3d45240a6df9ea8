//! Opening a root that names its schema.
ghost use Rattle.std.specs.Prelude.{◌≡◌, ◌<◌, length};
ghost use Rattle.ild_open_named.specs.Opened.{HasNamedValue, Opens};
ghost use Rattle.ild_open_named.specs.inside.Found.{FindsRoot, Judges, ReadsNamed};
ghost use Rattle.ild_view_named.specs.NamedDocs.{block_in, table_in, type_in};

use crate::getting::{are_bytes, find_text, get_block};
use ild_cbor::{BlockWhy, Piece};
use ild_data::{BlockId, KeyHash, Octets};
use ild_edges::Store;
use ild_named::NAMED_ROOM;
use ild_open_read::{OpenFault, read};
use ild_schema::{Accepted, Slot, TypeNo, Val};
use ild_view_doc::DocErr;
use ild_view_named::NamedDoc;
use std::alloc::Global;

// The root block that bytes under an id are, or why they are none.
fn judge<'s>(
    alloc: Global,
    acc: &'s Accepted,
    ty: TypeNo,
    id: &BlockId,
    block: Octets,
) -> Result<NamedDoc<'s>, OpenFault>
    requires { ty.0 < length acc.now }
    ensures { Judges acc.now ty id.now.0 block result }
{
    match NamedDoc::of(alloc, acc, ty, block) {
        Ok(doc) => Ok(doc),
        Err(DocErr::Cbor(fault)) => Err(OpenFault::Block {
            id: *id,
            why: BlockWhy::Cbor(fault),
        }),
        Err(DocErr::Shape(why)) => Err(OpenFault::Block {
            id: *id,
            why: BlockWhy::Shape(why),
        }),
        Err(DocErr::Memory) => Err(OpenFault::Memory),
    }
}

// The root block under an id.
fn find_root<'s, K: Store>(
    alloc: Global,
    acc: &'s Accepted,
    ty: TypeNo,
    id: &BlockId,
    store: &mut K,
) -> Result<NamedDoc<'s>, OpenFault>
    requires { ty.0 < length acc.now }
    ensures { FindsRoot acc.now ty id.now.0 (K.moment store.old) result (K.moment store.new) }
{
    let block = match get_block(id, store) {
        Ok(block) => block,
        Err(fault) => return Err(fault),
    };
    match judge(alloc, acc, ty, id, block) {
        Ok(doc) => Ok(doc),
        Err(fault) => Err(fault),
    }
}

// The value beneath a root block, whose nodes are read from a store.
fn read_value<K: Store, H: KeyHash>(
    alloc: Global,
    doc: &NamedDoc<'_>,
    at: BlockId,
    keys: &H,
    store: &mut K,
) -> Result<Val, OpenFault>
    ensures { ReadsNamed H.hash_of (table_in doc.now) (type_in doc.now) at.0 (block_in doc.now) (K.moment store.old) result (K.moment store.new) }
{
    let piece = Piece::Node(doc.parts().value);
    let slot = Slot {
        ty: doc.ty(),
        nullable: false,
    };
    read(
        alloc,
        doc.schema(),
        slot,
        &piece,
        NAMED_ROOM,
        true,
        at,
        keys,
        store,
    )
}

/// Opens the root under an id that names its schema: reads the whole tree of blocks of the value of a type that stands beneath it, and
/// the schema's block, each block once, and checks it. Over every store, that the value stands there follows from blocks that gets gave,
/// each under its own hash. `Block` comes exactly where no such value stands there, with a block at fault: the root block's form, the
/// schema's block, and then HAMT by HAMT.
pub fn open_named<'s, K: Store, H: KeyHash>(
    alloc: Global,
    acc: &'s Accepted,
    ty: TypeNo,
    id: &BlockId,
    keys: &H,
    store: &mut K,
) -> Result<(NamedDoc<'s>, Val), OpenFault>
    requires { ty.0 < length acc.now }
    ensures { Opens (HasNamedValue H.hash_of acc.now ty id.now.0 (K.moment store.new)) H.hash_of acc.now ty id.now.0 (K.moment store.old) result (K.moment store.new) }
{
    acc.recall();
    let doc = match find_root(alloc, acc, ty, id, store) {
        Ok(doc) => doc,
        Err(fault) => return Err(fault),
    };
    are_bytes(doc.block());
    let schema = doc.parts().schema;
    let text = match find_text(&schema, store) {
        Ok(text) => text,
        Err(fault) => return Err(fault),
    };
    text.as_slice();
    match read_value(alloc, &doc, *id, keys, store) {
        Ok(val) => Ok((doc, val)),
        Err(fault) => Err(fault),
    }
}
