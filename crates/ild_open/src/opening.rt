//! Opening the root of a value.
ghost use Rattle.std.specs.Prelude.{◌≡◌, ◌<◌, None, length};
ghost use Rattle.ild_cbor.specs.Reading.{fault_of};
ghost use Rattle.ild_data.specs.Bytes.{AreBytes};
ghost use Rattle.ild_view_doc.specs.Block.{HasRoot};
ghost use Rattle.ild_open.specs.inside.Found.{GetFinds, HasKept, Judges, ReadsRoot};
ghost use Rattle.ild_open.specs.Opened.{HasOpened, HasValue, Opens};

use ild_cbor::{BlockWhy, Piece, known_root};
use ild_data::{BlockId, KeyHash, Octets};
use ild_edges::{EdgeErr, Store};
use ild_open_read::{OpenFault, read};
use ild_schema::{Accepted, Slot, TypeNo, Val};
use ild_view_doc::{Doc, DocErr};
use std::alloc::Global;

// The root block that bytes under an id are, or why they are none.
fn judge<'s>(
    alloc: Global,
    acc: &'s Accepted,
    ty: TypeNo,
    id: &BlockId,
    block: Octets,
) -> Result<Doc<'s>, OpenFault>
    requires { ty.0 < length acc.now }
    ensures { Judges acc.now ty id.now.0 block result }
{
    match Doc::of(alloc, acc, ty, block) {
        Ok(doc) => Ok(doc),
        Err(DocErr::Cbor(fault)) => Err(OpenFault::Block {
            id: *id,
            why: BlockWhy::Cbor(fault),
        }),
        Err(DocErr::Shape(why)) => Err(OpenFault::Block {
            id: *id,
            why: BlockWhy::Shape(why),
        }),
        Err(DocErr::Memory) => Err(OpenFault::Memory),
    }
}

// The root block under an id.
fn find<'s, K: Store>(
    alloc: Global,
    acc: &'s Accepted,
    ty: TypeNo,
    id: &BlockId,
    store: &mut K,
) -> Result<Doc<'s>, OpenFault>
    requires { ty.0 < length acc.now }
    ensures { GetFinds acc.now ty id.now.0 (K.moment store.old) result (K.moment store.new) }
{
    match store.get(id) {
        Ok(Some(block)) => judge(alloc, acc, ty, id, block),
        Ok(None) => Err(OpenFault::Block {
            id: *id,
            why: BlockWhy::Missing,
        }),
        Err(EdgeErr::Failed) => Err(OpenFault::Store),
        Err(EdgeErr::Memory) => Err(OpenFault::Memory),
    }
}

// The items of a slice of bytes are bytes.
fn are_bytes(bytes: &[u8])
    ensures { AreBytes bytes.now }
{}

// The value that a root block represents, whose nodes are read from a store.
fn read_root<K: Store, H: KeyHash>(
    alloc: Global,
    acc: &Accepted,
    ty: TypeNo,
    block: &[u8],
    keep: bool,
    at: BlockId,
    keys: &H,
    store: &mut K,
) -> Result<Val, OpenFault>
    requires within { ty.0 < length acc.now }
    requires faultless { fault_of block.now ≡ None }
    requires root { ∥ HasRoot acc.now ty block.now ∥₁ }
    ensures { ReadsRoot H.hash_of acc.now ty at.0 block.now keep (K.moment store.old) result (K.moment store.new) }
{
    let root = Piece::Node(known_root(block));
    let slot = Slot {
        ty,
        nullable: false,
    };
    read(alloc, acc, slot, &root, 96, keep, at, keys, store)
}

// Opens a root, and gives its value, which is made only where it is to be kept.
fn open<'s, K: Store, H: KeyHash>(
    alloc: Global,
    acc: &'s Accepted,
    ty: TypeNo,
    id: &BlockId,
    keep: bool,
    keys: &H,
    store: &mut K,
) -> Result<(Doc<'s>, Val), OpenFault>
    requires { ty.0 < length acc.now }
    ensures { Opens (HasKept H.hash_of acc.now ty id.now.0 (K.moment store.new) keep) H.hash_of acc.now ty id.now.0 (K.moment store.old) result (K.moment store.new) }
{
    acc.recall();
    let doc = match find(alloc, acc, ty, id, store) {
        Ok(doc) => doc,
        Err(fault) => return Err(fault),
    };
    let block = doc.block();
    are_bytes(block);
    match read_root(alloc, acc, ty, block, keep, *id, keys, store) {
        Ok(val) => Ok((doc, val)),
        Err(fault) => Err(fault),
    }
}

/// Opens the root under an id: reads the whole tree of blocks of the value of a type that stands there, each block once, and
/// checks it. Over every store, that the value stands there follows from blocks that gets gave, each under its own hash. `Block` comes exactly where
/// no such value stands there, with a block at fault: the root block's form, and then HAMT by HAMT.
pub fn open_root<'s, K: Store, H: KeyHash>(
    alloc: Global,
    acc: &'s Accepted,
    ty: TypeNo,
    id: &BlockId,
    keys: &H,
    store: &mut K,
) -> Result<Doc<'s>, OpenFault>
    requires { ty.0 < length acc.now }
    ensures { Opens (HasOpened H.hash_of acc.now ty id.now.0 (K.moment store.new)) H.hash_of acc.now ty id.now.0 (K.moment store.old) result (K.moment store.new) }
{
    match open(alloc, acc, ty, id, false, keys, store) {
        Ok(opened) => Ok(opened.0),
        Err(fault) => Err(fault),
    }
}

/// The same, with the value.
pub fn open_value<'s, K: Store, H: KeyHash>(
    alloc: Global,
    acc: &'s Accepted,
    ty: TypeNo,
    id: &BlockId,
    keys: &H,
    store: &mut K,
) -> Result<(Doc<'s>, Val), OpenFault>
    requires { ty.0 < length acc.now }
    ensures { Opens (HasValue H.hash_of acc.now ty id.now.0 (K.moment store.new)) H.hash_of acc.now ty id.now.0 (K.moment store.old) result (K.moment store.new) }
{
    match open(alloc, acc, ty, id, true, keys, store) {
        Ok(opened) => Ok(opened),
        Err(fault) => Err(fault),
    }
}
